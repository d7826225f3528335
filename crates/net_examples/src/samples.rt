//! Processes drawn at random: what their code gives on one node is what their streams are.
ghost use Rattle.net_rules.specs.CheckedNet.{IsChecked};

use net_kahn::streams;
use net_rules::{Checked, check, is_small};
use net_select::{Ports, select};
use net_syntax::read_net;
use std::alloc::Global;
use std::test::Fail;
use tis_asm::Program;
use tis_base::{Dir, Value, Values};
use tis_grid::InputAt;
use tis_node::Node;

const HEAD: &[u8] =
    b"net 1\ntiles CCCC CCCC CCCC\ninput a at 0\ninput b at 1\noutput o at 0\noutput q at 1\nprocess p\nget a x\n";

const TAIL: &[u8] = b"getadd b x\nput o x\nput q x\nend\n";

// How many of the lines open a block, and how many of those behind them close one.
const OPENING: u32 = 22;

const CLOSING: u32 = 10;

// The lines of which a body is drawn: those that open a block, those that close one, `else`, and statements.
const LINES: [&[u8]; 76] = [
    b"if x = 0\n",
    b"if x != 0\n",
    b"if x < 0\n",
    b"if x > 0\n",
    b"if x <= 0\n",
    b"if x >= 0\n",
    b"if y = 0\n",
    b"if y != 0\n",
    b"if y < 0\n",
    b"if y > 0\n",
    b"if y <= 0\n",
    b"if y >= 0\n",
    b"while x != 0\nget a x\n",
    b"while x < 0\nget b x\n",
    b"while y > 0\nget a y\n",
    b"while y = 0\nget b y\n",
    b"while x <= 0\nget a x\n",
    b"while y >= 0\nget b y\n",
    b"count x\n",
    b"count y\n",
    b"count x\nput o x\n",
    b"count y\nput q y\n",
    b"end\n",
    b"end\n",
    b"end\n",
    b"end\n",
    b"end\n",
    b"end\n",
    b"end\n",
    b"end\n",
    b"end\n",
    b"end\n",
    b"else\n",
    b"else\n",
    b"else\n",
    b"else\n",
    b"else\n",
    b"else\n",
    b"get a x\n",
    b"get b x\n",
    b"getadd a x\n",
    b"getsub b x\n",
    b"put o x\n",
    b"put q x\n",
    b"set x 3\n",
    b"set x -999\n",
    b"add x 1\n",
    b"add x 999\n",
    b"sub x 2\n",
    b"sub x 999\n",
    b"neg x\n",
    b"double x\n",
    b"get a y\n",
    b"get b y\n",
    b"getadd a y\n",
    b"getsub b y\n",
    b"put o y\n",
    b"put q y\n",
    b"set y 3\n",
    b"set y -999\n",
    b"add y 1\n",
    b"add y 999\n",
    b"sub y 2\n",
    b"sub y 999\n",
    b"neg y\n",
    b"double y\n",
    b"put o 7\n",
    b"put q -999\n",
    b"move a o\n",
    b"move b q\n",
    b"move a q\n",
    b"copy x y\n",
    b"copy y x\n",
    b"copy x x\n",
    b"swap\n",
    b"swap\n",
];

// The values that come in: small ones, and the least and the greatest.
const NUMBERS: [i64; 12] = [0, 1, -1, 2, -2, 3, 5, -7, 11, 40, 999, -999];

// A source of numbers that look as if they were random.
#[derive(Drop)]
struct Draw {
    state: u64,
}

impl Draw {
    // The next number.
    fn next(&mut self) -> u32 {
        self.state = self
            .state
            .wrapping_mul(6364136223846793005)
            .wrapping_add(1442695040888963407);
        (self.state >> 33) as u32
    }
}

// The text of a network of one process with a body that is drawn.
fn text_of(alloc: Global, draw: &mut Draw) -> Result<Vec<u8>, Fail> {
    let mut text = HEAD.to_vec(alloc)?;
    let mut open: u32 = 0;
    for _ in 0..5 {
        let choice = draw.next() % 76;
        if choice < OPENING {
            open = open.saturating_add(1);
        } else if choice < OPENING + CLOSING {
            open = open.saturating_sub(1);
        }
        text.extend_from_slice(LINES[choice as usize])?;
    }
    for _ in 0..open {
        text.extend_from_slice(b"end\n")?;
    }
    text.extend_from_slice(TAIL)?;
    Ok(text)
}

// So many values, drawn from this number on.
fn values_of(alloc: Global, seed: u64, count: u32) -> Result<Values, Fail> {
    let mut draw = Draw { state: seed };
    let mut values = Values::new(alloc);
    for _ in 0..count {
        let number = NUMBERS[(draw.next() % 12) as usize];
        values.push(Value::clamp(number))?;
    }
    Ok(values)
}

// Whether two lists have the same values.
fn are_same(one: &Values, other: &Values) -> bool {
    if one.len() != other.len() {
        return false;
    }
    for index in 0..one.len() {
        if index >= other.len() || one.at(index) != other.at(index) {
            return false;
        }
    }
    true
}

// A node that runs by itself: how many values it took from above and from the left, and those that it gave below
// and to the right.
#[derive(Drop)]
struct Run {
    node: Node,
    above: usize,
    left: usize,
    below: Values,
    right: Values,
}

impl Run {
    // One more step, over values from above and from the left. False where the node waits for a value that isn't there.
    fn step(&mut self, program: &Program, above: &Values, left: &Values) -> Result<bool, Fail> {
        if !program.sound() || !self.node.fits(program) {
            return Err(Fail::new("a node of the program"));
        }
        if self.node.can_local(program) {
            self.node.local(program);
        } else if self.node.wants(program, Dir::Up) {
            if self.above >= above.len() {
                return Ok(false);
            }
            self.node.take(program, Dir::Up, above.at(self.above));
            self.above += 1;
        } else if self.node.wants(program, Dir::Left) {
            if self.left >= left.len() {
                return Ok(false);
            }
            self.node.take(program, Dir::Left, left.at(self.left));
            self.left += 1;
        } else if let Some(value) = self.node.offers(Dir::Down) {
            self.below.push(value)?;
            self.node.gave(program, Dir::Down);
        } else if let Some(value) = self.node.offers(Dir::Right) {
            self.right.push(value)?;
            self.node.gave(program, Dir::Right);
        } else {
            return Err(Fail::new("a node that can do something"));
        }
        Ok(true)
    }
}

// What the program of a node gives by itself.
fn run_of(alloc: Global, program: &Program, above: &Values, left: &Values) -> Result<Run, Fail> {
    let mut run = Run {
        node: Node::fresh(),
        above: 0,
        left: 0,
        below: Values::new(alloc),
        right: Values::new(alloc),
    };
    for _ in 0..2_000_000u32 {
        if !run.step(program, above, left)? {
            return Ok(run);
        }
    }
    Err(Fail::new("a node that comes to wait"))
}

// Whether the first process of a network has a program, which gives what the streams of the network are.
fn agrees(alloc: Global, checked: &Checked, seed: u64) -> Result<Option<bool>, Fail>
    requires { IsChecked checked.now }
{
    if checked.len() == 0 {
        return Ok(None);
    }
    let mut ports = Ports::new();
    ports.set(0, Dir::Up);
    ports.set(1, Dir::Left);
    ports.set(2, Dir::Down);
    ports.set(3, Dir::Right);
    let Ok(program) = select(checked, 0, &ports) else {
        return Ok(None);
    };
    let mut inputs = Vec::new(alloc);
    inputs.push(InputAt {
        position: 0,
        values: values_of(alloc, seed, 20)?,
    })?;
    inputs.push(InputAt {
        position: 1,
        values: values_of(alloc, seed.wrapping_add(1), 15)?,
    })?;
    let found = streams(alloc, checked, inputs.as_slice())?;
    let above = values_of(alloc, seed, 20)?;
    let left = values_of(alloc, seed.wrapping_add(1), 15)?;
    let run = run_of(alloc, &program, &above, &left)?;
    match (found.out(0), found.out(1)) {
        (Some(below), Some(right)) => Ok(Some(
            are_same(below, &run.below) && are_same(right, &run.right),
        )),
        _ => Ok(Some(false)),
    }
}

// The same for a text, where it is that of a network that is accepted.
fn text_agrees(alloc: Global, text: &[u8], seed: u64) -> Result<Option<bool>, Fail> {
    let Ok(net) = read_net(alloc, text) else {
        return Ok(None);
    };
    if !is_small(&net) {
        return Ok(None);
    }
    match check(alloc, &net) {
        Ok(checked) => agrees(alloc, &checked, seed),
        Err(_) => Ok(None),
    }
}

#[test]
fn the_code_of_drawn_processes_gives_their_streams(rt: HostRuntime) -> Result<(), Fail> {
    let alloc = rt.alloc();
    let mut draw = Draw { state: 2026 };
    let mut ran: u32 = 0;
    for seed in 0..2000u64 {
        let text = text_of(alloc, &mut draw)?;
        match text_agrees(alloc, &text, seed)? {
            Some(same) => {
                assert!(&rt; same);
                ran = ran.saturating_add(1);
            }
            None => {}
        }
    }
    assert!(&rt; ran > 400);
    Ok(())
}
