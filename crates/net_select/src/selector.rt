//! The code of a process, instruction after instruction.
ghost use Rattle.std.specs.Prelude.{◌≡◌, ◌≤◌, ◌+◌, ◌++◌, ◌∷◌, [], length};
ghost use Rattle.tis_asm.specs.declared.instr.Source.TheVariants.{Port as from_port};
ghost use Rattle.tis_asm.specs.declared.instr.Dest.TheVariants.{Port as to_port};
ghost use Rattle.net_tree.specs.declared.tree.Var.TheVariants.{X, Y};
ghost use Rattle.net_numbered.specs.View.{numbered_block, numbered_statement};
ghost use Rattle.net_select.specs.HeldPorts.{ports_of};
ghost use Rattle.net_select.specs.Emission.{entering_head};
ghost use Rattle.net_select.specs.Selection.{as_program, with_code, jump_of as jump_of_test, jump_to as jump_at, copy_code, on, if_frame, leaving_frame, entering_frame, count_frame, if_code, leaving_code, entering_code, count_code, statement_lines, statement_code, block_code, block_lines as block_has};

use crate::lines::{block_lines, jumps_where_held, on_lines};
use crate::ports::Ports;
use net_numbered::{NumberedBlock as Block, NumberedStatement as Statement};
use net_tree::{Test, Var};
use tis_asm::{Dest, Instr, Jump, Program, Source};
use tis_base::Value;

// The jump of a test: some jump where the test fails, and some where it holds.
fn jump_of(test: Test) -> Jump
    ensures { result ≡ jump_of_test test }
{
    match test {
        Test::Zero => Jump::IfNotZero,
        Test::NotZero => Jump::IfZero,
        Test::Negative | Test::NotNegative => Jump::IfNegative,
        Test::Positive | Test::NotPositive => Jump::IfPositive,
    }
}

// These instructions behind the others.
fn emit(program: &mut Program, code: &[Instr])
    requires { length program.old + length code.now ≤ 15 }
    ensures { program.new ≡ program.old ++ as_program code.now }
{
    'code: for instr in code {
        program.push(*instr, false);
    }
}

// An instruction on x; on y it stands between two SWP.
fn emit_on(program: &mut Program, var: Var, instr: Instr)
    requires { length program.old + length (on var (instr ∷ [])) ≤ 15 }
    ensures { program.new ≡ program.old ++ as_program (on var (instr ∷ [])) }
{
    match var {
        Var::X => emit(program, &[instr]),
        Var::Y => emit(program, &[Instr::Swp, instr, Instr::Swp]),
    }
}

// The first variable gets the value of the second.
fn emit_copy(program: &mut Program, to: Var, from: Var)
    requires { length program.old + length (copy_code to from) ≤ 15 }
    ensures { program.new ≡ program.old ++ as_program (copy_code to from) }
{
    match (to, from) {
        (Var::X, Var::Y) => emit(program, &[Instr::Swp, Instr::Sav]),
        (Var::Y, Var::X) => emit(program, &[Instr::Sav]),
        (Var::X, Var::X) | (Var::Y, Var::Y) => {}
    }
}

/// What code is selected with: the directions of the names, and how many instructions the whole program has.
#[derive(Clone, Copy)]
pub(crate) struct Selector<'p> {
    pub(crate) ports: &'p Ports,
    pub(crate) total: u64,
}

impl Selector<'_> {
    // The port of a name that is read.
    fn from(self, read: u32) -> Source
        ensures { result ≡ from_port (ports_of self.entry.ports.now read) }
    {
        Source::Port(self.ports.dir(read))
    }

    // The port of a name that is written.
    fn to(self, written: u32) -> Dest
        ensures { result ≡ to_port (ports_of self.entry.ports.now written) }
    {
        Dest::Port(self.ports.dir(written))
    }

    // A jump to a place; the place behind the last instruction is the first one.
    fn jump_to(self, jump: Jump, place: u64) -> Instr
        requires within { place ≤ self.total }
        requires short { self.total ≤ 15 }
        ensures { result ≡ jump_at self.entry.total jump place }
    {
        if place == self.total {
            return Instr::Jump(jump, 0);
        }
        Instr::Jump(jump, place as u8)
    }

    // What stands before the body of a loop whose jump enters it.
    fn enter(self, program: &mut Program, var: Var, jump: Jump, lines: u64)
        requires room { length program.old + (entering_frame var + lines) ≤ self.total }
        requires short { self.total ≤ 15 }
        ensures { program.new ≡ program.old ++ as_program (entering_head self.entry.total var jump lines (length program.old)) }
    {
        let top = u64::from(program.len());
        match var {
            Var::X => {
                let enter = self.jump_to(jump, top + 2);
                let leave = self.jump_to(Jump::Always, top + 3 + lines);
                emit(program, &[enter, leave]);
            }
            Var::Y => {
                let enter = self.jump_to(jump, top + 4);
                let leave = self.jump_to(Jump::Always, top + 6 + lines);
                emit(program, &[Instr::Swp, enter, Instr::Swp, leave, Instr::Swp]);
            }
        }
    }

    // An `if` on x: the block that is jumped to stands behind the other one.
    #[cycle(selecting)]
    fn branch_on_x(self, program: &mut Program, jump: Jump, straight: &Block, jumped: &Block)
        requires room { length program.old + (if_frame X (block_has (numbered_block jumped.now)) + (block_has (numbered_block straight.now) + block_has (numbered_block jumped.now))) ≤ self.total }
        requires short { self.total ≤ 15 }
        ensures { program.new ≡ with_code program.old (if_code self.entry.total X jump (block_has (numbered_block straight.now)) (block_has (numbered_block jumped.now)) (block_code (ports_of self.entry.ports.now) self.entry.total (numbered_block straight.now)) (block_code (ports_of self.entry.ports.now) self.entry.total (numbered_block jumped.now))) }
    {
        let at = u64::from(program.len());
        let over = block_lines(straight);
        let behind = block_lines(jumped);
        if behind == 0 {
            emit(program, &[self.jump_to(jump, at + 1 + over)]);
            self.block(program, straight);
            return;
        }
        emit(program, &[self.jump_to(jump, at + 2 + over)]);
        self.block(program, straight);
        emit(
            program,
            &[self.jump_to(Jump::Always, at + 2 + over + behind)],
        );
        self.block(program, jumped);
    }

    // An `if` on y: a SWP stands before the jump and before each of the blocks.
    #[cycle(selecting)]
    fn branch_on_y(self, program: &mut Program, jump: Jump, straight: &Block, jumped: &Block)
        requires room { length program.old + (if_frame Y (block_has (numbered_block jumped.now)) + (block_has (numbered_block straight.now) + block_has (numbered_block jumped.now))) ≤ self.total }
        requires short { self.total ≤ 15 }
        ensures { program.new ≡ with_code program.old (if_code self.entry.total Y jump (block_has (numbered_block straight.now)) (block_has (numbered_block jumped.now)) (block_code (ports_of self.entry.ports.now) self.entry.total (numbered_block straight.now)) (block_code (ports_of self.entry.ports.now) self.entry.total (numbered_block jumped.now))) }
    {
        let at = u64::from(program.len());
        let over = block_lines(straight);
        let behind = block_lines(jumped);
        let jump_over = self.jump_to(jump, at + 4 + over);
        emit(program, &[Instr::Swp, jump_over, Instr::Swp]);
        self.block(program, straight);
        let jump_behind = self.jump_to(Jump::Always, at + 5 + over + behind);
        emit(program, &[jump_behind, Instr::Swp]);
        self.block(program, jumped);
    }

    // An `if`, by which of its blocks is reached without the jump.
    #[cycle(selecting)]
    fn branch(self, program: &mut Program, var: Var, jump: Jump, straight: &Block, jumped: &Block)
        requires room { length program.old + (if_frame var (block_has (numbered_block jumped.now)) + (block_has (numbered_block straight.now) + block_has (numbered_block jumped.now))) ≤ self.total }
        requires short { self.total ≤ 15 }
        ensures { program.new ≡ with_code program.old (if_code self.entry.total var jump (block_has (numbered_block straight.now)) (block_has (numbered_block jumped.now)) (block_code (ports_of self.entry.ports.now) self.entry.total (numbered_block straight.now)) (block_code (ports_of self.entry.ports.now) self.entry.total (numbered_block jumped.now))) }
    {
        match var {
            Var::X => self.branch_on_x(program, jump, straight, jumped),
            Var::Y => self.branch_on_y(program, jump, straight, jumped),
        }
    }

    // A loop whose jump leaves it.
    #[cycle(selecting)]
    fn leaving_loop(self, program: &mut Program, var: Var, jump: Jump, body: &Block)
        requires room { length program.old + (leaving_frame var + block_has (numbered_block body.now)) ≤ self.total }
        requires short { self.total ≤ 15 }
        ensures { program.new ≡ with_code program.old (leaving_code self.entry.total var jump (block_has (numbered_block body.now)) (block_code (ports_of self.entry.ports.now) self.entry.total (numbered_block body.now))) }
    {
        let top = u64::from(program.len());
        let lines = block_lines(body);
        match var {
            Var::X => {
                emit(program, &[self.jump_to(jump, top + 2 + lines)]);
                self.block(program, body);
                emit(program, &[self.jump_to(Jump::Always, top)]);
            }
            Var::Y => {
                let leave = self.jump_to(jump, top + 4 + lines);
                emit(program, &[Instr::Swp, leave, Instr::Swp]);
                self.block(program, body);
                emit(program, &[self.jump_to(Jump::Always, top), Instr::Swp]);
            }
        }
    }

    // A loop whose jump enters it.
    #[cycle(selecting)]
    fn entering_loop(self, program: &mut Program, var: Var, jump: Jump, body: &Block)
        requires room { length program.old + (entering_frame var + block_has (numbered_block body.now)) ≤ self.total }
        requires short { self.total ≤ 15 }
        ensures { program.new ≡ with_code program.old (entering_code self.entry.total var jump (block_has (numbered_block body.now)) (block_code (ports_of self.entry.ports.now) self.entry.total (numbered_block body.now))) }
    {
        let top = u64::from(program.len());
        self.enter(program, var, jump, block_lines(body));
        self.block(program, body);
        emit(program, &[self.jump_to(Jump::Always, top)]);
    }

    // A loop that counts a variable down: such a loop while it is positive, with 1 less at the end of each turn.
    #[cycle(selecting)]
    fn counted_loop(self, program: &mut Program, var: Var, body: &Block)
        requires room { length program.old + (count_frame var + block_has (numbered_block body.now)) ≤ self.total }
        requires short { self.total ≤ 15 }
        ensures { program.new ≡ with_code program.old (count_code self.entry.total var (block_has (numbered_block body.now)) (block_code (ports_of self.entry.ports.now) self.entry.total (numbered_block body.now))) }
    {
        let top = u64::from(program.len());
        let lines = block_lines(body) + on_lines(var);
        self.enter(program, var, Jump::IfPositive, lines);
        self.block(program, body);
        emit_on(program, var, Instr::Sub(Source::Number(Value::clamp(1))));
        emit(program, &[self.jump_to(Jump::Always, top)]);
    }

    // The code of a statement.
    #[cycle(selecting)]
    fn statement(self, program: &mut Program, statement: &Statement)
        requires room { length program.old + statement_lines (numbered_statement statement.now) ≤ self.total }
        requires short { self.total ≤ 15 }
        ensures { program.new ≡ with_code program.old (statement_code (ports_of self.entry.ports.now) self.entry.total (numbered_statement statement.now)) }
    {
        match statement {
            Statement::Get(read, var) => emit_on(
                program,
                *var,
                Instr::Mov(self.from(*read), Dest::Acc),
            ),
            Statement::GetAdd(read, var) => emit_on(program, *var, Instr::Add(self.from(*read))),
            Statement::GetSub(read, var) => emit_on(program, *var, Instr::Sub(self.from(*read))),
            Statement::Put(written, var) => emit_on(
                program,
                *var,
                Instr::Mov(Source::Acc, self.to(*written)),
            ),
            Statement::PutNumber(written, number) => {
                emit(
                    program,
                    &[Instr::Mov(Source::Number(*number), self.to(*written))],
                );
            }
            Statement::Move(read, written) => {
                emit(program, &[Instr::Mov(self.from(*read), self.to(*written))]);
            }
            Statement::Set(var, number) => emit_on(
                program,
                *var,
                Instr::Mov(Source::Number(*number), Dest::Acc),
            ),
            Statement::Add(var, number) => emit_on(
                program,
                *var,
                Instr::Add(Source::Number(*number)),
            ),
            Statement::Sub(var, number) => emit_on(
                program,
                *var,
                Instr::Sub(Source::Number(*number)),
            ),
            Statement::Neg(var) => emit_on(program, *var, Instr::Neg),
            Statement::Double(var) => emit_on(program, *var, Instr::Add(Source::Acc)),
            Statement::Copy(to, from) => emit_copy(program, *to, *from),
            Statement::Swap => emit(program, &[Instr::Swp]),
            Statement::If(var, test, first, second) => {
                if jumps_where_held(*test) {
                    self.branch(program, *var, jump_of(*test), second, first);
                } else {
                    self.branch(program, *var, jump_of(*test), first, second);
                }
            }
            Statement::While(var, test, body) => {
                if jumps_where_held(*test) {
                    self.entering_loop(program, *var, jump_of(*test), body);
                } else {
                    self.leaving_loop(program, *var, jump_of(*test), body);
                }
            }
            Statement::Count(var, body) => self.counted_loop(program, *var, body),
        }
    }

    /// The code of a block: that of its statements one behind the other.
    #[cycle(selecting)]
    pub(crate) fn block(self, program: &mut Program, block: &Block)
        requires room { length program.old + block_has (numbered_block block.now) ≤ self.total }
        requires short { self.total ≤ 15 }
        ensures { program.new ≡ with_code program.old (block_code (ports_of self.entry.ports.now) self.entry.total (numbered_block block.now)) }
    {
        'statements: for index in 0..block.len() {
            self.statement(program, block.at(index));
        }
    }
}
