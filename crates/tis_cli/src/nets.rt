//! The streams of a network over the inputs of a grid text.
ghost use Rattle.std.specs.Prelude.{◌≡◌, ◌++◌, OnOk};
ghost use Rattle.tis_base.specs.Answers.{Gives};
ghost use Rattle.tis_grid.specs.Puzzle.{puzzle_of};
ghost use Rattle.net_tree.specs.View.{net_view};
ghost use Rattle.net_rules.specs.CheckedNet.{IsSmallNet};
ghost use Rattle.net_rules.specs.Numbers.{numbered};
ghost use Rattle.net_kahn.specs.Found.{net_in, streams_of, IsFound};
ghost use Rattle.tis_cli.specs.Ends.{Ends};
ghost use Rattle.tis_cli.specs.Nets.{stream_line, stream_lines, over_rules, net_answer};

use crate::runs::Run;
use crate::status::Status;
use net_column::read_networks_are_small;
use net_kahn::{KahnStreams, streams};
use net_rules::check;
use net_syntax::read_net;
use net_tree::Net;
use std::alloc::Global;
use tis_base::NoMemory;
use tis_grid::Puzzle;
use tis_grid_text::read_grid;
use tis_report::push_stream;

// Writes the line of the output at a position, where the network has one there.
fn push_line(text: &mut Vec<u8>, found: &KahnStreams, position: u8) -> Result<(), NoMemory>
    requires { IsFound found.now }
    ensures { OnOk result (text.new.items ≡ text.old.items ++ stream_line (numbered (net_in found.now)) (streams_of found.now) position) }
{
    match found.out(position) {
        Some(values) => push_stream(text, position, values),
        None => Ok(()),
    }
}

// Writes the lines of all outputs of a network, by ascending position.
fn push_lines(text: &mut Vec<u8>, found: &KahnStreams, columns: u8) -> Result<(), NoMemory>
    requires { IsFound found.now }
    ensures { OnOk result (text.new.items ≡ text.old.items ++ stream_lines (numbered (net_in found.now)) (streams_of found.now) columns) }
{
    for position in 0..columns {
        push_line(text, found, position)?;
    }
    Ok(())
}

// The report of the streams of a network.
fn streams_report(alloc: Global, found: &KahnStreams, columns: u8) -> Result<Vec<u8>, NoMemory>
    requires { IsFound found.now }
    ensures { Gives (λ text. text.items) result (stream_lines (numbered (net_in found.now)) (streams_of found.now) columns) }
{
    let mut text = Vec::new(alloc);
    push_lines(&mut text, found, columns)?;
    Ok(text)
}

// What a network comes to over the inputs of a puzzle.
fn run_net(alloc: Global, net: &Net, puzzle: &Puzzle) -> Result<Run, Status>
    requires { IsSmallNet (net_view net.now) }
    ensures { Ends result (over_rules (net_view net.now) (puzzle_of puzzle.now)) }
{
    let checked = check(alloc, net)?;
    let found = streams(alloc, &checked, &puzzle.inputs)?;
    let report = streams_report(alloc, &found, net.tiles.shape().columns)?;
    Ok(Run {
        status: Status::Done,
        report,
    })
}

/// What the text of a network comes to over the inputs of a grid text.
pub(crate) fn net(alloc: Global, text: &[u8], grid: &[u8]) -> Result<Run, Status>
    ensures { Ends result (net_answer text.now grid.now) }
{
    let net = read_net(alloc, text)?;
    read_networks_are_small();
    let puzzle = read_grid(alloc, grid)?;
    run_net(alloc, &net, &puzzle)
}
