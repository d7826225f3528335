//! How large a solution is.
ghost use Rattle.std.specs.Prelude.{◌≡◌, ◌<◌, ◌+◌, ◌-◌, ◌^◌, nat_lt, if◌then◌else◌};
ghost use Rattle.tis_grade.specs.Counts.{node_count, instruction_count};

use tis_asm::Programs;
use tis_base::Tile;

// One node more, where its program has an instruction.
fn with_node(nodes: u32, len: u8) -> u32
    requires { nodes < 2 ^ 32 - 1 }
    ensures { result ≡ nodes + (if nat_lt 0 len then 1 else 0) }
{
    if 0 < len { nodes + 1 } else { nodes }
}

/// How many nodes have at least one instruction, and how many instructions all nodes have together.
pub fn counts(programs: &Programs) -> (u32, u32)
    ensures nodes { result.0 ≡ node_count programs.now.programs }
    ensures instructions { result.1 ≡ instruction_count programs.now.programs }
{
    let shape = programs.tiles().shape();
    let mut nodes = 0;
    let mut instructions = 0;
    for number in 0..shape.columns * shape.rows {
        let len = programs.of(Tile { number }).len();
        nodes = with_node(nodes, len);
        instructions += u32::from(len);
    }
    (nodes, instructions)
}
