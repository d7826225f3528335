//! What a script prints.
ghost use Rattle.std.specs.Prelude.{◌≡◌, ◌++◌, OnOk};
ghost use Rattle.tis_base.specs.Answers.{Gives};
ghost use Rattle.tis_debug.specs.declared.script.Action.TheVariants as act;
ghost use Rattle.tis_debug.specs.Scripts.{after_action, action_text, error_text, stop_text, debug_text};

use crate::error::DebugError;
use crate::script::Action;
use crate::session::{Session, Stop};
use crate::text::{push_line, push_numbered};
use std::alloc::Global;
use tis_base::NoMemory;
use tis_grid::Grid;

// Writes why a call was refused.
fn push_error(out: &mut Vec<u8>, error: DebugError) -> Result<(), NoMemory>
    ensures { OnOk result (out.new.items ≡ out.old.items ++ error_text error) }
{
    match error {
        DebugError::NoHistory { kept } => push_line(out, b"no history ", kept),
        DebugError::NoSuchNode { tile } => push_line(out, b"no node ", u64::from(tile)),
        DebugError::NoSuchLine { instruction } => {
            push_line(out, b"no line ", u64::from(instruction))
        }
    }
}

// Writes what stopped a session that went on, and its cycle.
fn push_stop(out: &mut Vec<u8>, stop: Stop, cycle: u64) -> Result<(), NoMemory>
    ensures { OnOk result (out.new.items ≡ out.old.items ++ stop_text stop cycle) }
{
    match stop {
        Stop::Break { tile } => {
            push_numbered(out, b"stop ", u64::from(tile.number))?;
            push_line(out, b" cycle ", cycle)
        }
        Stop::Rest => push_line(out, b"rest cycle ", cycle),
        Stop::Limit => push_line(out, b"limit cycle ", cycle),
    }
}

impl<'g> Session<'g> {
    // Does so many cycles, and writes which one it is then.
    fn report_step(&mut self, out: &mut Vec<u8>, count: u64) -> Result<(), NoMemory>
        ensures text { OnOk result (out.new.items ≡ out.old.items ++ action_text self.old (act.Step count)) }
        ensures session { OnOk result (self.new ≡ after_action self.old (act.Step count)) }
    {
        self.step(count)?;
        push_line(out, b"cycle ", self.cycle())
    }

    // Goes on, and writes what stopped it.
    fn report_go(&mut self, out: &mut Vec<u8>) -> Result<(), NoMemory>
        ensures text { OnOk result (out.new.items ≡ out.old.items ++ action_text self.old act.Go) }
        ensures session { OnOk result (self.new ≡ after_action self.old act.Go) }
    {
        let stop = self.go()?;
        push_stop(out, stop, self.cycle())
    }

    // Marks an instruction, and writes that or why not.
    fn report_break(&mut self, out: &mut Vec<u8>, tile: u8, instruction: u8) -> Result<(), NoMemory>
        ensures text { OnOk result (out.new.items ≡ out.old.items ++ action_text self.old (act.Break tile instruction)) }
        ensures session { OnOk result (self.new ≡ after_action self.old (act.Break tile instruction)) }
    {
        match self.break_at(tile, instruction) {
            Ok(()) => {
                push_numbered(out, b"break ", u64::from(tile))?;
                push_line(out, b" ", u64::from(instruction))
            }
            Err(error) => push_error(out, error),
        }
    }

    // Takes cycles back, and writes which one it is then, or why not.
    fn report_back(&mut self, out: &mut Vec<u8>, count: u64) -> Result<(), NoMemory>
        ensures text { OnOk result (out.new.items ≡ out.old.items ++ action_text self.old (act.Back count)) }
        ensures session { OnOk result (self.new ≡ after_action self.old (act.Back count)) }
    {
        match self.back(count) {
            Ok(()) => push_line(out, b"cycle ", self.cycle()),
            Err(error) => push_error(out, error),
        }
    }

    // Does a command, and writes what it prints.
    fn report(&mut self, out: &mut Vec<u8>, action: Action) -> Result<(), NoMemory>
        ensures text { OnOk result (out.new.items ≡ out.old.items ++ action_text self.old action) }
        ensures session { OnOk result (self.new ≡ after_action self.old action) }
    {
        match action {
            Action::Step(count) => self.report_step(out, count),
            Action::Go => self.report_go(out),
            Action::Break { tile, instruction } => self.report_break(out, tile, instruction),
            Action::Back(count) => self.report_back(out, count),
            Action::Show => self.push_shown(out),
        }
    }
}

/// What a session prints that begins at the start of a grid and does these commands one after the other.
pub fn debug_report(alloc: Global, grid: &Grid, actions: &[Action]) -> Result<Vec<u8>, NoMemory>
    ensures { Gives (λ text. text.items) result (debug_text grid.now actions.now) }
{
    let mut session = Session::new(alloc, grid)?;
    let mut text = Vec::new(alloc);
    for action in actions {
        session.report(&mut text, *action)?;
    }
    Ok(text)
}
