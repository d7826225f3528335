//! What is kept of one output, so that none of its values is compared twice.
ghost use Rattle.std.specs.Prelude.{◌≡◌, ◌≤◌, ℤ, List, [], Some, None, IfNone, length, take, slice_get, replicate, if◌then◌else◌};
ghost use Rattle.std.specs.Ordering.{int_eq};
ghost use Rattle.tis_base.specs.Prefix.{IsPrefixOf};
ghost use Rattle.tis_devices.specs.Picture.{picture, after_value};
ghost use Rattle.tis_grid.specs.declared.puzzle.OutKind.TheVariants as kind;
ghost use Rattle.tis_grid.specs.Puzzle.{output_of};
ghost use Rattle.tis_grade.specs.declared.verdict.Verdict.TheVariants.{Wrong};
ghost use Rattle.tis_grade.specs.Verdict.{first_wrong as first_wrong_in, fault_by, is_done_by};
ghost use Rattle.tis_grade.specs.Following.{differs as differs_at, differences, IsFollowed, IsBehind, seen_of};

use crate::verdict::Verdict;
use tis_base::{Value, Values};
use tis_devices::Console;
use tis_grid::{OutKind, OutputAt};

// How many points a picture has.
const POINTS: u16 = 540;

// How many columns it has.
const WIDTH: usize = 30;

/// How far an output was compared.
#[derive(Debug, Drop)]
pub(crate) enum Follow {
    /// So many values are as wanted.
    Stream {
        seen: usize,
    },
    /// So many values were drawn, and so many points of the picture aren't as wanted.
    Image {
        seen: usize,
        console: Console,
        differing: usize,
    },
}

// 1 where another colour is wanted at a point, and else 0.
fn differs(wanted: &Values, index: usize, colour: u8) -> usize
    ensures differs { result ≡ differs_at (slice_get wanted.now.items index) colour }
    ensures one { result ≤ 1 }
{
    if index >= wanted.len() {
        return 0;
    }
    if wanted.at(index).get() == i64::from(colour) {
        0
    } else {
        1
    }
}

// How many of so many black points aren't as wanted.
fn differing_from_black(wanted: &Values, points: u16) -> usize
    ensures { result ≡ differences wanted.now.items (replicate points 0) }
{
    let mut differing = 0;
    for index in 0..usize::from(points) {
        differing += differs(wanted, index, 0);
    }
    differing
}

// Draws one more value, and gives how many points aren't as wanted behind it.
fn paint(console: &mut Console, differing: usize, wanted: &Values, value: Value) -> usize
    requires whole { length console.old.colours ≡ 540 }
    requires differing { differing ≡ differences wanted.now.items console.old.colours }
    ensures console { console.new ≡ after_value console.old value }
    ensures differing { result ≡ differences wanted.now.items console.new.colours }
{
    match console.next_point() {
        None => {
            console.paint(value);
            differing
        }
        Some((x, y)) => {
            let index = usize::from(y) * WIDTH + usize::from(x);
            let was = differs(wanted, index, console.pixel(x, y));
            console.paint(value);
            let is = differs(wanted, index, console.pixel(x, y));
            differing + is - was
        }
    }
}

// Draws the values from this one on, and gives how many points aren't as wanted behind them.
fn draw(
    console: &mut Console,
    differing: usize,
    wanted: &Values,
    taken: &Values,
    seen: usize,
) -> usize
    requires seen { seen ≤ length taken.now.items }
    requires console { console.old ≡ picture (take seen taken.now.items) }
    requires differing { differing ≡ differences wanted.now.items console.old.colours }
    ensures console { console.new ≡ picture taken.now.items }
    ensures differing { result ≡ differences wanted.now.items (picture taken.now.items).colours }
{
    let mut differing = differing;
    for index in seen..taken.len() {
        differing = paint(console, differing, wanted, taken.at(index));
    }
    differing
}

// What is wrong with a value that came in place of one that is wanted.
fn compare(output: u8, index: usize, want: Value, got: Value) -> Option<Verdict>
    ensures { result ≡ (if int_eq want got then None else Some (Wrong output index want got)) }
{
    if want.get() == got.get() {
        return None;
    }
    Some(Verdict::Wrong {
        output,
        index,
        want: want.get(),
        got: got.get(),
    })
}

// The first value from this one on that is another than wanted, where those before are as wanted.
fn first_wrong(output: u8, wanted: &Values, taken: &Values, seen: usize) -> Option<Verdict>
    requires within { seen ≤ length taken.now.items }
    requires same { IsPrefixOf (take seen taken.now.items) wanted.now.items }
    ensures { result ≡ first_wrong_in output 0 wanted.now.items taken.now.items }
{
    for index in seen..taken.len() {
        if index >= wanted.len() {
            return None;
        }
        if let Some(wrong) = compare(output, index, wanted.at(index), taken.at(index)) {
            return Some(wrong);
        }
    }
    None
}

// What is wrong with a stream, of which so many values are as wanted.
fn stream_fault(output: u8, wanted: &Values, taken: &Values, seen: usize) -> Option<Verdict>
    requires within { seen ≤ length taken.now.items }
    requires same { IsPrefixOf (take seen taken.now.items) wanted.now.items }
    ensures fault { result ≡ fault_by kind.Stream output wanted.now.items taken.now.items }
    ensures same { IfNone result (IsPrefixOf taken.now.items wanted.now.items) }
{
    match first_wrong(output, wanted, taken, seen) {
        Some(wrong) => Some(wrong),
        None if wanted.len() < taken.len() => Some(Verdict::Extra { output }),
        None => None,
    }
}

impl Follow {
    // Nothing was taken yet.
    pub(crate) fn new(output: &OutputAt) -> Follow
        ensures { IsFollowed (output_of output.now) [] result }
    {
        match output.kind {
            OutKind::Stream => Follow::Stream { seen: 0 },
            OutKind::Image => Follow::Image {
                seen: 0,
                console: Console::new(),
                differing: differing_from_black(&output.expected, POINTS),
            },
        }
    }

    // How many values were looked at.
    pub(crate) fn seen(&self) -> usize
        ensures { result ≡ seen_of self.now }
    {
        match self {
            Follow::Stream { seen } => *seen,
            Follow::Image { seen, .. } => *seen,
        }
    }

    // Looks at the values that came since, and gives what is wrong.
    pub(crate) fn go_on(
        &mut self,
        output: &OutputAt,
        position: u8,
        taken: &Values,
    ) -> Option<Verdict>
        requires { IsBehind (output_of output.now) taken.now.items self.old }
        ensures fault { result ≡ fault_by output.now.kind position output.now.expected.items taken.now.items }
        ensures followed { IfNone result (IsFollowed (output_of output.now) taken.now.items self.new) }
    {
        match self {
            Follow::Stream { seen } => {
                let fault = stream_fault(position, &output.expected, taken, *seen);
                *seen = taken.len();
                fault
            }
            Follow::Image {
                seen,
                console,
                differing,
            } => {
                *differing = draw(console, *differing, &output.expected, taken, *seen);
                *seen = taken.len();
                None
            }
        }
    }

    // Whether an output is as wanted, all of whose values were looked at.
    pub(crate) fn is_done(&self, output: &OutputAt) -> bool
        ensures { (taken : List ℤ) → IsFollowed (output_of output.now) taken self.now → result ≡ is_done_by output.now.kind output.now.expected.items taken }
    {
        match self {
            Follow::Stream { seen } => *seen == output.expected.len(),
            Follow::Image { differing, .. } => {
                let all = output.expected.len() == usize::from(POINTS);
                all && *differing == 0
            }
        }
    }
}
