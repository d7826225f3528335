//! An instruction that needs no port, as a row of numbers.
ghost use Rattle.std.specs.Prelude.{◌≡◌, ◌<◌, ◌*ℤ◌, ◌≤ℤ◌, neg_ℤ, negsuc, pos, length};
ghost use Rattle.tis_asm.specs.Node as table;
ghost use Rattle.tis_node.specs.Rows as rows;

use crate::doing::{away, jumps};
use tis_asm::{Dest, Instr, Jump, Program, Source};
use tis_base::{Dir, Value};

/// What an instruction does that needs no port and goes on at once: the new ACC is the nearest value to so many times
/// ACC, so many times BAK and a number; BAK becomes ACC or stays; and the next instruction is one of three, by the sign
/// of ACC. So new registers and pc are computed alike for all of them, without a branch. Of an instruction that reads from
/// one port it is that port. Of one that writes to a port that is named it is that port too, and what would be the new ACC is
/// what is written.
#[derive(Clone, Copy, Debug, PartialEq, Eq, Hash)]
pub(crate) struct Row {
    // Whether the instruction goes on at once.
    pub(crate) tells: bool,
    // The port that it reads from, if it reads from one whatever the node did before.
    pub(crate) waits: Option<Dir>,
    // The port that it writes to, if it needs none to go on and writes to one whatever the node did before.
    pub(crate) sends: Option<Dir>,
    // How many times ACC and BAK are in the new ACC, and the number besides.
    pub(crate) of_acc: i16,
    pub(crate) of_bak: i16,
    pub(crate) plus: i16,
    // Whether BAK becomes ACC.
    pub(crate) saves: bool,
    // The number of the next instruction, where ACC is below 0, 0 and above 0.
    pub(crate) next: [u8; 3],
}

// So many times a value.
#[inline(always)]
fn times(count: i16, value: Value) -> i64
    ensures is { result ≡ count *ℤ value }
    ensures least { negsuc 32735231 ≤ℤ result }
    ensures most { result ≤ℤ pos 32735232 }
{
    i64::from(count) * value.get()
}

// The place among three by the sign of a value.
#[inline(always)]
fn sign_place(value: Value) -> usize
    ensures place { result ≡ rows.sign_place value }
    ensures among { result < 3 }
{
    let number = value.get();
    (0 <= number) as usize + (0 < number) as usize
}

impl Row {
    /// The new ACC.
    #[inline(always)]
    pub(crate) fn acc(&self, acc: Value, bak: Value) -> Value
        ensures { result ≡ rows.acc_by self.now acc bak }
    {
        Value::clamp(times(self.of_acc, acc) + times(self.of_bak, bak) + i64::from(self.plus))
    }

    /// The new BAK.
    #[inline(always)]
    pub(crate) fn bak(&self, acc: Value, bak: Value) -> Value
        ensures { result ≡ rows.bak_by self.now acc bak }
    {
        if self.saves { acc } else { bak }
    }

    /// The new pc.
    #[inline(always)]
    pub(crate) fn pc(&self, acc: Value) -> u8
        ensures { result ≡ rows.pc_by self.now acc }
    {
        self.next[sign_place(acc)]
    }
}

/// The row of an instruction of another kind.
pub(crate) fn silent() -> Row
    ensures { result ≡ rows.silent }
{
    Row {
        tells: false,
        waits: None,
        sends: None,
        of_acc: 0,
        of_bak: 0,
        plus: 0,
        saves: false,
        next: [0, 0, 0],
    }
}

// The row of an instruction that reads from a port.
fn waiting(port: Dir) -> Row
    ensures { result ≡ rows.waiting port }
{
    Row {
        tells: false,
        waits: Some(port),
        sends: None,
        of_acc: 0,
        of_bak: 0,
        plus: 0,
        saves: false,
        next: [0, 0, 0],
    }
}

// The row of an instruction that writes so many times ACC and a number to a port.
fn sending(of_acc: i16, plus: i16, port: Dir) -> Row
    ensures { result ≡ rows.sending of_acc plus port }
{
    Row {
        tells: false,
        waits: None,
        sends: Some(port),
        of_acc,
        of_bak: 0,
        plus,
        saves: false,
        next: [0, 0, 0],
    }
}

// The row of an instruction that goes on the same whatever ACC is.
fn straight(of_acc: i16, of_bak: i16, plus: i16, saves: bool, next: u8) -> Row
    ensures { result ≡ rows.straight of_acc of_bak plus saves next }
{
    Row {
        tells: true,
        waits: None,
        sends: None,
        of_acc,
        of_bak,
        plus,
        saves,
        next: [next, next, next],
    }
}

// The row of an instruction that does nothing but go on.
fn going_on(next: u8) -> Row
    ensures { result ≡ rows.going_on next }
{
    straight(1, 0, 0, false, next)
}

// A value, in fewer bits.
fn narrow(value: Value) -> i16
    ensures { result ≡ value }
{
    value.get() as i16
}

// The value on the other side of 0, in fewer bits.
fn narrow_opposite(value: Value) -> i16
    ensures { result ≡ neg_ℤ value }
{
    (-value.get()) as i16
}

// The row of an instruction that moves a value into ACC.
fn moving(source: Source, next: u8) -> Row
    ensures { result ≡ rows.moving source next }
{
    match source {
        Source::Number(number) => straight(0, 0, narrow(number), false, next),
        Source::Acc => going_on(next),
        Source::Nil => straight(0, 0, 0, false, next),
        Source::Port(port) => waiting(port),
        Source::Any => silent(),
        Source::Last => silent(),
    }
}

// The row of an instruction that drops a value.
fn dropping(source: Source, next: u8) -> Row
    ensures { result ≡ rows.dropping source next }
{
    match source {
        Source::Number(_) => going_on(next),
        Source::Acc => going_on(next),
        Source::Nil => going_on(next),
        Source::Port(port) => waiting(port),
        Source::Any => silent(),
        Source::Last => silent(),
    }
}

// The row of an instruction that moves a value to a port that is named.
fn sending_to(source: Source, port: Dir) -> Row
    ensures { result ≡ rows.sending_to source port }
{
    match source {
        Source::Number(number) => sending(0, narrow(number), port),
        Source::Acc => sending(1, 0, port),
        Source::Nil => sending(0, 0, port),
        Source::Port(from_port) => waiting(from_port),
        Source::Any => silent(),
        Source::Last => silent(),
    }
}

// The row of an instruction that moves a value to ANY or LAST.
fn writing(source: Source) -> Row
    ensures { result ≡ rows.writing source }
{
    match source {
        Source::Port(port) => waiting(port),
        Source::Number(_) => silent(),
        Source::Acc => silent(),
        Source::Nil => silent(),
        Source::Any => silent(),
        Source::Last => silent(),
    }
}

// The row of an instruction that moves a value.
fn moving_to(source: Source, dest: Dest, next: u8) -> Row
    ensures { result ≡ rows.moving_to source dest next }
{
    match dest {
        Dest::Acc => moving(source, next),
        Dest::Nil => dropping(source, next),
        Dest::Port(port) => sending_to(source, port),
        Dest::Any => writing(source),
        Dest::Last => writing(source),
    }
}

// The row of an instruction that adds a value.
fn adding(source: Source, next: u8) -> Row
    ensures { result ≡ rows.adding source next }
{
    match source {
        Source::Number(number) => straight(1, 0, narrow(number), false, next),
        Source::Acc => straight(2, 0, 0, false, next),
        Source::Nil => going_on(next),
        Source::Port(port) => waiting(port),
        Source::Any => silent(),
        Source::Last => silent(),
    }
}

// The row of an instruction that takes a value away.
fn taking_away(source: Source, next: u8) -> Row
    ensures { result ≡ rows.taking_away source next }
{
    match source {
        Source::Number(number) => straight(1, 0, narrow_opposite(number), false, next),
        Source::Acc => straight(0, 0, 0, false, next),
        Source::Nil => going_on(next),
        Source::Port(port) => waiting(port),
        Source::Any => silent(),
        Source::Last => silent(),
    }
}

// The row of an instruction that goes so many instructions on or back.
fn going_away(source: Source, program: &Program, pc: u8) -> Row
    requires { pc < length program.now }
    ensures { result ≡ rows.going_away source program.now pc }
{
    match source {
        Source::Number(number) => going_on(away(program, pc, number)),
        Source::Nil => going_on(pc),
        Source::Acc => silent(),
        Source::Port(port) => waiting(port),
        Source::Any => silent(),
        Source::Last => silent(),
    }
}

// Where a jump leads with such a number in ACC.
fn jump_to(jump: Jump, acc: Value, number: u8, next: u8) -> u8
    ensures { result ≡ rows.jump_to jump acc number next }
{
    if jumps(jump, acc) { number } else { next }
}

// The row of a jump.
fn jumping(jump: Jump, number: u8, next: u8) -> Row
    ensures { result ≡ rows.jumping jump number next }
{
    let below = jump_to(jump, Value::clamp(-1), number, next);
    let zero = jump_to(jump, Value::clamp(0), number, next);
    let above = jump_to(jump, Value::clamp(1), number, next);
    Row {
        tells: true,
        waits: None,
        sends: None,
        of_acc: 1,
        of_bak: 0,
        plus: 0,
        saves: false,
        next: [below, zero, above],
    }
}

// The number of the next instruction: after the last one the first follows.
fn next_of(program: &Program, pc: u8) -> u8
    requires { pc < length program.now }
    ensures { result ≡ table.next_of program.now pc }
{
    let count = program.len();
    let next = pc + 1;
    if next < count { next } else { 0 }
}

/// The row of an instruction at its number.
pub(crate) fn row_of(instr: Instr, program: &Program, pc: u8) -> Row
    requires { pc < length program.now }
    ensures { result ≡ rows.row_of instr program.now pc }
{
    let next = next_of(program, pc);
    match instr {
        Instr::Nop => going_on(next),
        Instr::Swp => straight(0, 1, 0, true, next),
        Instr::Sav => straight(1, 0, 0, true, next),
        Instr::Neg => straight(-1, 0, 0, false, next),
        Instr::Mov(source, dest) => moving_to(source, dest, next),
        Instr::Add(source) => adding(source, next),
        Instr::Sub(source) => taking_away(source, next),
        Instr::Jro(source) => going_away(source, program, pc),
        Instr::Jump(jump, number) => jumping(jump, number, next),
    }
}
