//! A save over a specification, graded for several seeds.
ghost use Rattle.std.specs.Prelude.{◌≡◌, [], ◌∷◌, ◌++◌, List, Option, Result, ℕ, OnOk};
ghost use Rattle.tis_grid.specs.Puzzle.{Puzzle as SomePuzzle};
ghost use Rattle.tis_grade.specs.declared.cases.Case.{Case as SomeCase};
ghost use Rattle.tis_spec.specs.Specification.{Refusal as SpecRefusal, Specifies};
ghost use Rattle.tis_cli.specs.Answers.{Answer};
ghost use Rattle.tis_cli.specs.Commands.{kept_seeds};
ghost use Rattle.tis_cli.specs.Runs.{over_cases, grades, grade_answer};
ghost use Rattle.tis_cli.specs.Ends.{Ends, OpensCases, Continues, grade_status};

use crate::command::SEEDS;
use crate::runs::{Run, open_grid};
use crate::status::Status;
use std::alloc::Global;
use tis_base::NoMemory;
use tis_grade::{Case, Failed, grade_all};

// One more case.
fn push_case(cases: &mut Vec<Case>, case: Case) -> Result<(), NoMemory>
    ensures { OnOk result (cases.new.items ≡ cases.old.items ++ case ∷ []) }
{
    cases.push(case)?;
    Ok(())
}

// Makes the puzzle and reads the save for a seed, where there is one.
fn open_case(
    alloc: Global,
    save: &[u8],
    spec: &[u8],
    seed: Option<u64>,
    cases: &mut Vec<Case>,
) -> Result<(), Status>
    ensures { (given : ℕ → Result SomePuzzle SpecRefusal) (seeds : List (Option ℕ)) (next : List SomeCase → Answer) → ((each : ℕ) → Specifies spec.now each (given each)) → Continues result (over_cases save.now given cases.old.items (kept_seeds (seed ∷ seeds)) next) (over_cases save.now given cases.new.items (kept_seeds seeds) next) }
{
    let Some(seed) = seed else {
        return Ok(());
    };
    let grid = open_grid(alloc, save, spec, seed)?;
    push_case(cases, Case { seed, grid })?;
    Ok(())
}

// The cases of a save and a specification for these seeds, each of which is made before the next.
fn open_cases(
    alloc: Global,
    save: &[u8],
    spec: &[u8],
    seeds: &[Option<u64>; SEEDS],
) -> Result<Vec<Case>, Status>
    ensures { (given : ℕ → Result SomePuzzle SpecRefusal) (next : List SomeCase → Answer) → ((each : ℕ) → Specifies spec.now each (given each)) → OpensCases (λ cases. cases.items) result (over_cases save.now given [] (kept_seeds seeds.now) next) next }
{
    let mut cases = Vec::new(alloc);
    for seed in seeds {
        open_case(alloc, save, spec, *seed, &mut cases)?;
    }
    Ok(cases)
}

// The status of a solution that is passed for each seed, or fails at one.
fn status_of(failed: Option<Failed>) -> Status
    ensures { result ≡ grade_status failed }
{
    match failed {
        None => Status::Done,
        Some(Failed { seed, verdict }) => Status::NotPassed { seed, verdict },
    }
}

// Grades cases in order, up to the first that isn't passed.
fn grade_cases(alloc: Global, cases: &[Case], limit: u64) -> Result<Run, Status>
    ensures { Ends result (grades limit cases.now) }
{
    let graded = grade_all(alloc, cases, limit)?;
    Ok(Run {
        status: status_of(graded.failed),
        report: graded.report,
    })
}

/// What a grade comes to.
pub(crate) fn grade(
    alloc: Global,
    save: &[u8],
    spec: &[u8],
    limit: u64,
    seeds: &[Option<u64>; SEEDS],
) -> Result<Run, Status>
    ensures { (given : ℕ → Result SomePuzzle SpecRefusal) → ((each : ℕ) → Specifies spec.now each (given each)) → Ends result (grade_answer save.now given limit (kept_seeds seeds.now)) }
{
    let cases = open_cases(alloc, save, spec, seeds)?;
    grade_cases(alloc, &cases, limit)
}
