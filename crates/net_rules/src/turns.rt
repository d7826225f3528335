//! The rule that each process, and each turn of a `while`, surely reads.
ghost use Rattle.std.specs.Prelude.{◌<◌, ◌^◌, length, map};
ghost use Rattle.net_tree.specs.View.{block_view, process_view};
ghost use Rattle.net_rules.specs.Broken.{Breaks};
ghost use Rattle.net_rules.specs.Rules.{sure_read_fault as fault_of, sure_reads_from};

use crate::error::RuleError;
use crate::loops::first_loop_without_read;
use crate::sure::surely_reads;
use net_tree::{Block, ProcessText};

/// What this rule finds wrong with a process that has this number and this body.
pub fn sure_read_fault(process: u32, body: &Block) -> Option<RuleError>
    ensures { Breaks result (fault_of process (block_view body.now)) }
{
    if !surely_reads(body) {
        return Some(RuleError::NoSureRead { process });
    }
    match first_loop_without_read(body) {
        Some(line) => Some(RuleError::LoopWithoutRead { line }),
        None => None,
    }
}

/// What this rule finds wrong with the first of these processes that breaks it.
pub fn sure_reads(processes: &[ProcessText]) -> Option<RuleError>
    requires { length processes.now < 2 ^ 32 }
    ensures { Breaks result (sure_reads_from 0 (map process_view processes.now)) }
{
    let mut number = 0;
    'processes: for process in processes {
        if let Some(error) = sure_read_fault(number, &process.body) {
            return Some(error);
        }
        number += 1;
    }
    None
}
