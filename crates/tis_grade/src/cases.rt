//! Grades a solution for several seeds, and tells what came of it.
ghost use Rattle.std.specs.Prelude.{◌≡◌, ◌++◌, OnOk};
ghost use Rattle.std.specs.Fmt.{signed_decimal};
ghost use Rattle.tis_base.specs.Answers.{Gives};
ghost use Rattle.tis_grade.specs.declared.verdict.Verdict.TheVariants.{Wrong};
ghost use Rattle.tis_grade.specs.Counts.{node_count, instruction_count};
ghost use Rattle.tis_grade.specs.Reports.{phrase, verdict_words, verdict_line, size_words, size_line, cycles_of, programs_in, graded};

use crate::grading::grade;
use crate::size::counts;
use crate::verdict::Verdict;
use std::alloc::Global;
use tis_base::{NoMemory, push_number};
use tis_grid::Grid;
use tis_report::push_count;

/// A seed, and the grid of the puzzle that it makes and of the solution.
#[derive(Debug, Drop)]
pub struct Case {
    pub seed: u64,
    pub grid: Grid,
}

/// A seed for which a solution isn't passed, and the verdict that says why.
#[derive(Clone, Copy, Debug, PartialEq, Eq, Hash)]
pub struct Failed {
    pub seed: u64,
    pub verdict: Verdict,
}

/// What is told of a solution: its report, and the first seed for which it isn't passed, where there is one.
#[derive(Debug, Drop)]
pub struct Graded {
    pub report: Vec<u8>,
    pub failed: Option<Failed>,
}

// Writes a word and a number behind what is there.
fn push_phrase(report: &mut Vec<u8>, word: &[u8], number: u64) -> Result<(), NoMemory>
    ensures { OnOk result (report.new.items ≡ report.old.items ++ phrase word.now number) }
{
    report.extend_from_slice(word)?;
    push_count(report, number)
}

// Writes a word and a value behind what is there.
fn push_value(report: &mut Vec<u8>, word: &[u8], value: i64) -> Result<(), NoMemory>
    ensures { OnOk result (report.new.items ≡ report.old.items ++ (word.now ++ signed_decimal value)) }
{
    report.extend_from_slice(word)?;
    push_number(report, value)
}

// Writes which value of an output is wrong behind what is there.
fn push_wrong(
    report: &mut Vec<u8>,
    output: u8,
    index: usize,
    want: i64,
    got: i64,
) -> Result<(), NoMemory>
    ensures { OnOk result (report.new.items ≡ report.old.items ++ verdict_words (Wrong output index want got)) }
{
    push_phrase(report, b"wrong out ", u64::from(output))?;
    push_phrase(report, b" index ", index as u64)?;
    push_value(report, b" want ", want)?;
    push_value(report, b" got ", got)
}

// Writes a verdict in words behind what is there.
fn push_words(report: &mut Vec<u8>, verdict: Verdict) -> Result<(), NoMemory>
    ensures { OnOk result (report.new.items ≡ report.old.items ++ verdict_words verdict) }
{
    match verdict {
        Verdict::Passed { cycles } => push_phrase(report, b"passed ", cycles),
        Verdict::Wrong {
            output,
            index,
            want,
            got,
        } => push_wrong(report, output, index, want, got),
        Verdict::Extra { output } => push_phrase(report, b"extra out ", u64::from(output)),
        Verdict::Stuck { cycles } => push_phrase(report, b"stuck ", cycles),
        Verdict::Late { limit } => push_phrase(report, b"late ", limit),
    }
}

// Writes the line of a seed and its verdict.
fn push_verdict(report: &mut Vec<u8>, seed: u64, verdict: Verdict) -> Result<(), NoMemory>
    ensures { OnOk result (report.new.items ≡ report.old.items ++ verdict_line seed verdict) }
{
    push_phrase(report, b"seed ", seed)?;
    report.push(b' ')?;
    push_words(report, verdict)?;
    report.push(b'\n')?;
    Ok(())
}

// How many nodes have an instruction, and how many instructions there are.
fn size_of(cases: &[Case]) -> (u64, u64)
    ensures nodes { result.0 ≡ node_count (programs_in cases.now) }
    ensures instructions { result.1 ≡ instruction_count (programs_in cases.now) }
{
    match cases.split_first() {
        Some((case, _)) => {
            let (nodes, instructions) = counts(case.grid.programs());
            (u64::from(nodes), u64::from(instructions))
        }
        None => (0, 0),
    }
}

// Writes both in words.
fn push_counts(report: &mut Vec<u8>, nodes: u64, instructions: u64) -> Result<(), NoMemory>
    ensures { OnOk result (report.new.items ≡ report.old.items ++ size_words nodes instructions) }
{
    push_phrase(report, b" nodes ", nodes)?;
    push_phrase(report, b" instructions ", instructions)
}

// Writes the line of a solution that is passed.
fn push_size(
    report: &mut Vec<u8>,
    cycles: u64,
    nodes: u64,
    instructions: u64,
) -> Result<(), NoMemory>
    ensures { OnOk result (report.new.items ≡ report.old.items ++ size_line cycles nodes instructions) }
{
    push_phrase(report, b"cycles ", cycles)?;
    push_counts(report, nodes, instructions)?;
    report.push(b'\n')?;
    Ok(())
}

// After how many cycles a verdict says that all is as wanted, where it says so.
fn cycles_in(verdict: &Verdict) -> Option<u64>
    ensures { result ≡ cycles_of verdict.now }
{
    match verdict {
        Verdict::Passed { cycles } => Some(*cycles),
        Verdict::Wrong { .. }
        | Verdict::Extra { .. }
        | Verdict::Stuck { .. }
        | Verdict::Late { .. } => None,
    }
}

/// Grades a solution for each of these seeds in order, up to the first for which it isn't passed, and tells the
/// verdicts. Where all are passed, it tells the greatest number of cycles and how large the solution is.
pub fn grade_all(alloc: Global, cases: &[Case], limit: u64) -> Result<Graded, NoMemory>
    ensures { Gives (λ g. record { report = g.report.items; failed = g.failed }) result (graded limit cases.now) }
{
    let mut report = Vec::new(alloc);
    let mut greatest = 0;
    for case in cases {
        let verdict = grade(alloc, &case.grid, limit)?;
        push_verdict(&mut report, case.seed, verdict)?;
        let Some(cycles) = cycles_in(&verdict) else {
            let seed = case.seed;
            return Ok(Graded {
                report,
                failed: Some(Failed { seed, verdict }),
            });
        };
        greatest = cycles.max(greatest);
    }
    let (nodes, instructions) = size_of(cases);
    push_size(&mut report, greatest, nodes, instructions)?;
    Ok(Graded {
        report,
        failed: None,
    })
}
