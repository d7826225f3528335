//! Grades a grid cycle by cycle.
ghost use Rattle.std.specs.Prelude.{◌≡◌, [], ℤ, List, All, map, length, get_or, Some, None, IfNone, option_map};
ghost use Rattle.std.specs.List.{list_all};
ghost use Rattle.std.specs.Option.{option_or};
ghost use Rattle.tis_base.specs.Answers.{Gives};
ghost use Rattle.tis_grid.specs.Puzzle.{output_of};
ghost use Rattle.tis_grid.specs.State.{State as SomeState};
ghost use Rattle.tis_grid.specs.Orders.{Fits};
ghost use Rattle.tis_grade.specs.declared.verdict.Verdict.TheVariants.{Passed, Late};
ghost use Rattle.tis_grade.specs.Verdict.{output_at as output_in, fault_with, fault_at, first_fault as first_fault_of, are_done as done, is_done, is_done_by, where_holds, or_later, decided, verdict_of};
ghost use Rattle.tis_grade.specs.Following.{IsFollowed, IsBehind, HoldsAt, IsFollowedAt, IsFollowedIn, IsBehindAt, AreFollowed, AreBehind};

use crate::follow::Follow;
use crate::verdict::Verdict;
use std::alloc::Global;
use tis_base::{NoMemory, Values};
use tis_clock::{count_cycle, make_room};
use tis_grid::{Grid, OutputAt, State};

// How many columns a grid has.
const COLUMNS: usize = 4;

// The output at a position, where one stands.
fn output_at(outputs: &[OutputAt], position: u8) -> Option<&OutputAt>
    ensures { option_map (λ o. output_of o.now) result ≡ output_in (map output_of outputs.now) position }
{
    match outputs.split_first() {
        None => None,
        Some((output, rest)) => {
            if output.position == position {
                return Some(output);
            }
            output_at(rest, position)
        }
    }
}

// What is kept of the output at a position before any event.
fn follow_at(outputs: &[OutputAt], position: u8) -> Option<Follow>
    ensures { HoldsAt IsFollowed (output_in (map output_of outputs.now) position) [] result }
{
    match output_at(outputs, position) {
        Some(output) => Some(Follow::new(output)),
        None => None,
    }
}

// Looks at the values that the output at a position took since, and gives what is wrong.
fn go_on_with(
    follow: &mut Follow,
    outputs: &[OutputAt],
    position: u8,
    taken: &Values,
) -> Option<Verdict>
    requires { HoldsAt IsBehind (output_in (map output_of outputs.now) position) taken.now.items (Some follow.old) }
    ensures fault { result ≡ fault_with (map output_of outputs.now) position taken.now.items }
    ensures followed { IfNone result (HoldsAt IsFollowed (output_in (map output_of outputs.now) position) taken.now.items (Some follow.new)) }
{
    if follow.seen() == taken.len() {
        return None;
    }
    match output_at(outputs, position) {
        Some(output) => follow.go_on(output, position, taken),
        None => None,
    }
}

// The same, where one stands.
fn go_on_at(
    follow: &mut Option<Follow>,
    outputs: &[OutputAt],
    state: &State,
    position: u8,
) -> Option<Verdict>
    requires { IsBehindAt (map output_of outputs.now) state.now.state position follow.old }
    ensures fault { result ≡ fault_at (map output_of outputs.now) state.now.state position }
    ensures followed { IfNone result (IsFollowedAt (map output_of outputs.now) state.now.state position follow.new) }
{
    match follow {
        None => None,
        Some(follow) => match state.out(position) {
            Some(taken) => go_on_with(follow, outputs, position, taken),
            None => None,
        },
    }
}

// Looks at what came out since, and gives what is wrong at the first position at which something is.
fn first_fault(grid: &Grid, follows: &mut [Option<Follow>], state: &State) -> Option<Verdict>
    requires four { length follows.old ≡ 4 }
    requires behind { AreBehind grid.now.puzzle.outputs state.now.state follows.old }
    ensures four { length follows.new ≡ 4 }
    ensures fault { result ≡ first_fault_of grid.now state.now.state }
    ensures followed { IfNone result (AreFollowed grid.now.puzzle.outputs state.now.state follows.new) }
{
    let puzzle = grid.puzzle();
    for position in 0..COLUMNS {
        let follow = &mut follows[position];
        if let Some(fault) = go_on_at(follow, &puzzle.outputs, state, position as u8) {
            return Some(fault);
        }
    }
    None
}

// Whether an output is as wanted, all of whose values were looked at.
fn is_done_at(output: &OutputAt, follows: &[Option<Follow>]) -> bool
    ensures { (taken : List ℤ) → HoldsAt IsFollowed (Some (output_of output.now)) taken (get_or follows.now output.now.position None) → result ≡ is_done_by output.now.kind output.now.expected.items taken }
{
    match follows.get(output.position as usize) {
        Some(Some(follow)) => follow.is_done(output),
        _ => false,
    }
}

// Whether each of these outputs is.
fn are_done(outputs: &[OutputAt], follows: &[Option<Follow>]) -> bool
    ensures { (state : SomeState) → All (IsFollowedIn state follows.now) (map output_of outputs.now) → result ≡ list_all (is_done state) (map output_of outputs.now) }
{
    match outputs.split_first() {
        None => true,
        Some((output, rest)) => {
            if !is_done_at(output, follows) {
                return false;
            }
            are_done(rest, follows)
        }
    }
}

// What the outputs decide after so many cycles.
fn judge(grid: &Grid, follows: &mut [Option<Follow>], state: &State, cycles: u64) -> Option<Verdict>
    requires four { length follows.old ≡ 4 }
    requires behind { AreBehind grid.now.puzzle.outputs state.now.state follows.old }
    ensures four { length follows.new ≡ 4 }
    ensures verdict { result ≡ option_or (first_fault_of grid.now state.now.state) (where_holds (done grid.now state.now.state) (Passed cycles)) }
    ensures followed { IfNone result (AreFollowed grid.now.puzzle.outputs state.now.state follows.new) }
{
    match first_fault(grid, follows, state) {
        Some(fault) => Some(fault),
        None if are_done(&grid.puzzle().outputs, follows) => Some(Verdict::Passed { cycles }),
        None => None,
    }
}

// The verdict of the state after as many cycles as are allowed.
fn judge_last(grid: &Grid, follows: &mut [Option<Follow>], state: &State, limit: u64) -> Verdict
    requires fits { Fits grid.now state.now.state }
    requires four { length follows.old ≡ 4 }
    requires behind { AreBehind grid.now.puzzle.outputs state.now.state follows.old }
    ensures { result ≡ or_later (decided grid.now state.now.state limit) (Late limit) }
{
    // The call tells the proof that this is a grid.
    grid.puzzle();
    match judge(grid, follows, state, limit) {
        Some(verdict) => verdict,
        None if grid.at_rest(state) => Verdict::Stuck { cycles: limit },
        None => Verdict::Late { limit },
    }
}

/// Grades a grid: whether its outputs come to be as wanted within so many cycles, and else why they don't. It looks
/// at the state after each number of cycles from 0 on, and each value of an output is looked at once.
pub fn grade(alloc: Global, grid: &Grid, limit: u64) -> Result<Verdict, NoMemory>
    ensures { Gives (λ verdict. verdict) result (verdict_of grid.now limit) }
{
    let outputs = &grid.puzzle().outputs;
    let mut state = grid.start(alloc)?;
    let mut follows = [
        follow_at(outputs, 0),
        follow_at(outputs, 1),
        follow_at(outputs, 2),
        follow_at(outputs, 3),
    ];
    for cycles in 0..limit {
        if let Some(verdict) = judge(grid, &mut follows, &state, cycles) {
            return Ok(verdict);
        }
        make_room(&mut state)?;
        if count_cycle(grid, &mut state) == 0 {
            return Ok(Verdict::Stuck { cycles });
        }
    }
    Ok(judge_last(grid, &mut follows, &state, limit))
}
