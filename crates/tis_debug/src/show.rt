//! What a session shows.
ghost use Rattle.std.specs.Prelude.{◌≡◌, ◌<◌, ◌∷◌, ◌++◌, flat_map, length, OnOk};
ghost use Rattle.std.specs.List.{range_with_len};
ghost use Rattle.tis_base.specs.Answers.{Gives};
ghost use Rattle.tis_base.specs.declared.tiles.TileKind.TheVariants as kind;
ghost use Rattle.tis_node.specs.NodeView.{node_view, mode_view, toward_view};
ghost use Rattle.tis_grid.specs.Orders.{Fits};
ghost use Rattle.tis_grid.specs.State.{stack_at};
ghost use Rattle.tis_clock.specs.Cycle.{all_tiles};
ghost use Rattle.tis_report.specs.Outputs.{value_text, outputs_text};
ghost use Rattle.tis_debug.specs.Shown as text;

use crate::session::Session;
use crate::text::{push_line, push_numbered, push_register, push_text};
use std::alloc::Global;
use tis_base::{Dir, NoMemory, Tile, TileKind};
use tis_devices::Stack;
use tis_grid::{Grid, State};
use tis_node::{Mode, Node, Toward};
use tis_report::{push_outputs, push_value};

// Writes a direction.
fn push_dir(out: &mut Vec<u8>, dir: Dir) -> Result<(), NoMemory>
    ensures { OnOk result (out.new.items ≡ out.old.items ++ text.dir_word dir) }
{
    match dir {
        Dir::Left => push_text(out, b"left"),
        Dir::Right => push_text(out, b"right"),
        Dir::Up => push_text(out, b"up"),
        Dir::Down => push_text(out, b"down"),
    }
}

// Writes the port that ANY used last.
fn push_last(out: &mut Vec<u8>, last: Option<Dir>) -> Result<(), NoMemory>
    ensures { OnOk result (out.new.items ≡ out.old.items ++ text.last_word last) }
{
    match last {
        None => push_text(out, b"none"),
        Some(dir) => push_dir(out, dir),
    }
}

// Writes where a value is written to.
fn push_toward(out: &mut Vec<u8>, to: Toward) -> Result<(), NoMemory>
    ensures { OnOk result (out.new.items ≡ out.old.items ++ text.toward_word (toward_view to)) }
{
    match to {
        Toward::One(dir) => push_dir(out, dir),
        Toward::Any => push_text(out, b"any"),
    }
}

// Writes what a node is at.
fn push_mode(out: &mut Vec<u8>, mode: Mode) -> Result<(), NoMemory>
    ensures { OnOk result (out.new.items ≡ out.old.items ++ text.mode_text (mode_view mode)) }
{
    match mode {
        Mode::Ready => push_text(out, b"ready"),
        Mode::Writing { value, to } => {
            push_register(out, b"writing", value)?;
            push_text(out, b" ")?;
            push_toward(out, to)
        }
    }
}

// Writes the number of a node's instruction and its two registers.
fn push_registers(out: &mut Vec<u8>, tile: Tile, node: &Node) -> Result<(), NoMemory>
    ensures { OnOk result (out.new.items ≡ out.old.items ++ text.registers_text tile.number (node_view node.now)) }
{
    push_numbered(out, b"tile ", u64::from(tile.number))?;
    push_numbered(out, b" pc ", u64::from(node.pc))?;
    push_register(out, b" acc", node.acc)?;
    push_register(out, b" bak", node.bak)
}

// Writes the port that ANY used last, and what a node is at.
fn push_standing(out: &mut Vec<u8>, node: &Node) -> Result<(), NoMemory>
    ensures { OnOk result (out.new.items ≡ out.old.items ++ text.standing_text (node_view node.now)) }
{
    push_text(out, b" last ")?;
    push_last(out, node.last)?;
    push_text(out, b" ")?;
    push_mode(out, node.mode)?;
    push_text(out, b"\n")
}

// Writes the line of a node.
fn push_node(out: &mut Vec<u8>, tile: Tile, node: &Node) -> Result<(), NoMemory>
    ensures { OnOk result (out.new.items ≡ out.old.items ++ text.node_text tile.number (node_view node.now)) }
{
    push_registers(out, tile, node)?;
    push_standing(out, node)
}

// Writes the values of a stack, oldest first, each behind a blank.
fn push_values(out: &mut Vec<u8>, stack: &Stack) -> Result<(), NoMemory>
    ensures { OnOk result (out.new.items ≡ out.old.items ++ flat_map value_text stack.now) }
{
    for index in 0..stack.len() {
        push_value(out, stack.at(index))?;
    }
    Ok(())
}

// Writes the line of a stack.
fn push_stack(out: &mut Vec<u8>, tile: Tile, stack: &Stack) -> Result<(), NoMemory>
    ensures { OnOk result (out.new.items ≡ out.old.items ++ text.stack_text tile.number stack.now) }
{
    push_numbered(out, b"tile ", u64::from(tile.number))?;
    push_text(out, b" stack")?;
    push_values(out, stack)?;
    push_text(out, b"\n")
}

// Writes the node of a compute tile, where it has a program.
fn push_compute(out: &mut Vec<u8>, grid: &Grid, state: &State, tile: Tile) -> Result<(), NoMemory>
    requires fits { Fits grid.now state.now.state }
    requires there { tile.number < length grid.now.puzzle.tiles.kinds }
    ensures { OnOk result (out.new.items ≡ out.old.items ++ text.tile_where kind.Compute grid.now state.now.state tile.number) }
{
    if grid.programs().of(tile).is_empty() {
        return Ok(());
    }
    push_node(out, tile, &state.node(tile))
}

// Writes what stands on a tile.
fn push_tile(out: &mut Vec<u8>, grid: &Grid, state: &State, tile: Tile) -> Result<(), NoMemory>
    requires fits { Fits grid.now state.now.state }
    requires there { tile.number < length grid.now.puzzle.tiles.kinds }
    ensures { OnOk result (out.new.items ≡ out.old.items ++ text.tile_text grid.now state.now.state tile.number) }
{
    match grid.puzzle().tiles.kind(tile) {
        TileKind::Compute => push_compute(out, grid, state, tile),
        TileKind::Memory => push_stack(out, tile, state.stack(tile)),
        TileKind::Damaged => Ok(()),
    }
}

// Writes what stands on each tile.
fn push_tiles(out: &mut Vec<u8>, grid: &Grid, state: &State) -> Result<(), NoMemory>
    requires { Fits grid.now state.now.state }
    ensures { OnOk result (out.new.items ≡ out.old.items ++ flat_map (text.tile_text grid.now state.now.state) (all_tiles grid.now)) }
{
    let shape = grid.puzzle().tiles.shape();
    for number in 0..shape.columns * shape.rows {
        push_tile(out, grid, state, Tile { number })?;
    }
    Ok(())
}

// Writes how many values of the input at a position are left, where one stands there.
fn push_left(out: &mut Vec<u8>, state: &State, position: u8) -> Result<(), NoMemory>
    ensures { OnOk result (out.new.items ≡ out.old.items ++ text.left_text state.now.state position) }
{
    match state.left(position) {
        None => Ok(()),
        Some(left) => {
            push_numbered(out, b"in ", u64::from(position))?;
            push_line(out, b" left ", left as u64)
        }
    }
}

// Writes how many values of each input are left.
fn push_inputs(out: &mut Vec<u8>, grid: &Grid, state: &State) -> Result<(), NoMemory>
    ensures { OnOk result (out.new.items ≡ out.old.items ++ flat_map (text.left_text state.now.state) (range_with_len 0 grid.now.puzzle.tiles.shape.columns)) }
{
    for position in 0..grid.puzzle().tiles.shape().columns {
        push_left(out, state, position)?;
    }
    Ok(())
}

// Writes where a grid stands.
fn push_state(out: &mut Vec<u8>, grid: &Grid, state: &State) -> Result<(), NoMemory>
    requires { Fits grid.now state.now.state }
    ensures { OnOk result (out.new.items ≡ out.old.items ++ text.state_text grid.now state.now.state) }
{
    push_tiles(out, grid, state)?;
    push_inputs(out, grid, state)?;
    push_outputs(out, grid.puzzle(), state)
}

impl<'g> Session<'g> {
    // Writes all that a session shows.
    pub(crate) fn push_shown(&self, out: &mut Vec<u8>) -> Result<(), NoMemory>
        ensures { OnOk result (out.new.items ≡ out.old.items ++ text.shown self.now) }
    {
        push_line(out, b"cycle ", self.cycle)?;
        push_state(out, self.grid, &self.state)
    }

    /// The cycle, and then line by line each node that has a program, each stack, how many values of each input are
    /// left, and each output.
    pub fn show(&self, alloc: Global) -> Result<Vec<u8>, NoMemory>
        ensures { Gives (λ shown. shown.items) result (text.shown self.now) }
    {
        let mut shown = Vec::new(alloc);
        self.push_shown(&mut shown)?;
        Ok(shown)
    }
}
