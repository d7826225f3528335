//! How the program ends.
ghost use Rattle.std.specs.Prelude.{◌≡◌};
ghost use Rattle.tis_cli.specs.Statuses.{number_of};

use lua_syntax::LuaSyntax;
use net_column::FormError;
use net_rules::RuleError;
use net_syntax::NetError;
use tis_base::{NoMemory, SinkError, StoreError};
use tis_debug::ScriptError;
use tis_grade::Verdict;
use tis_grid_text::{EventsError, GridTextError};
use tis_puzzle::PuzzleError;
use tis_save::SaveError;
use tis_spec::SpecError;

/// Why a text was refused.
#[derive(Clone, Copy, Debug, PartialEq, Eq)]
pub enum Refusal {
    /// The network isn't of the form that is taken so far.
    NotThisForm,
    /// The text is no network.
    Net(NetError),
    /// The network breaks a rule.
    Rule(RuleError),
    /// The text isn't a save of these tiles.
    Save(SaveError),
    /// The text isn't a grid text: of a specification, it begins as one.
    Grid(GridTextError),
    /// The specification is neither a grid text nor a chunk of Lua.
    Syntax(LuaSyntax),
    /// The functions of the specification give no puzzle.
    Puzzle(PuzzleError),
    /// The line names no event.
    Events { line: usize },
    /// The event with this number, from 0 on, can't happen in its turn.
    NotEnabled { index: usize },
    /// The line is no command of the debugger.
    Script { line: usize },
}

/// How a call of `tool` ended.
#[derive(Clone, Copy, Debug, PartialEq, Eq)]
pub enum Status {
    /// It did what the words say.
    Done,
    /// For this seed, the first for which it is so, the solution isn't passed.
    NotPassed { seed: u64, verdict: Verdict },
    /// The words are no command.
    Words,
    /// A text was refused.
    Refused(Refusal),
    /// Nothing stands under a name that the command reads.
    Missing,
    /// The store failed.
    StoreFault,
    /// The sink failed.
    SinkFault,
    /// Memory ran out.
    NoMemory,
    /// As many events as were allowed have happened, and more can.
    Limit { done: u64 },
}

impl Status {
    /// The number that the program ends with, from 0 to 8.
    pub fn number(&self) -> u8
        ensures { result ≡ number_of self.now }
    {
        match self {
            Status::Done => 0,
            Status::NotPassed { .. } => 1,
            Status::Words => 2,
            Status::Refused(_) => 3,
            Status::Missing => 4,
            Status::StoreFault => 5,
            Status::SinkFault => 6,
            Status::NoMemory => 7,
            Status::Limit { .. } => 8,
        }
    }
}

impl From<NoMemory> for Status {
    ghost use Rattle.std.specs.Prelude.{◌≡◌};
    ghost use Rattle.tis_cli.specs.declared.status.Status.TheVariants.{NoMemory as no_memory};

    ghost from_gives = { λ _ status. status ≡ no_memory };

    fn from(_: NoMemory) -> Self {
        Status::NoMemory
    }
}

impl From<StoreError> for Status {
    ghost use Rattle.std.specs.Prelude.{◌≡◌};
    ghost use Rattle.tis_cli.specs.Statuses.{store_status};

    ghost from_gives = { λ error status. status ≡ store_status error };

    fn from(error: StoreError) -> Self {
        match error {
            StoreError::Missing => Status::Missing,
            StoreError::Failed => Status::StoreFault,
            StoreError::NoMemory => Status::NoMemory,
        }
    }
}

impl From<FormError> for Status {
    ghost use Rattle.std.specs.Prelude.{◌≡◌};
    ghost use Rattle.tis_cli.specs.Statuses.{form_status};

    ghost from_gives = { λ error status. status ≡ form_status error };

    fn from(error: FormError) -> Self {
        match error {
            FormError::NotThisForm => Status::Refused(Refusal::NotThisForm),
            FormError::NoMemory => Status::NoMemory,
        }
    }
}

impl From<NetError> for Status {
    ghost use Rattle.std.specs.Prelude.{◌≡◌};
    ghost use Rattle.tis_cli.specs.Statuses.{net_status};

    ghost from_gives = { λ error status. status ≡ net_status error };

    fn from(error: NetError) -> Self {
        match error {
            NetError::NoMemory => Status::NoMemory,
            _ => Status::Refused(Refusal::Net(error)),
        }
    }
}

impl From<RuleError> for Status {
    ghost use Rattle.std.specs.Prelude.{◌≡◌};
    ghost use Rattle.tis_cli.specs.Statuses.{rule_status};

    ghost from_gives = { λ error status. status ≡ rule_status error };

    fn from(error: RuleError) -> Self {
        match error {
            RuleError::NoMemory => Status::NoMemory,
            _ => Status::Refused(Refusal::Rule(error)),
        }
    }
}

impl From<SaveError> for Status {
    ghost use Rattle.std.specs.Prelude.{◌≡◌};
    ghost use Rattle.tis_cli.specs.Statuses.{save_status};

    ghost from_gives = { λ error status. status ≡ save_status error };

    fn from(error: SaveError) -> Self {
        match error {
            SaveError::NoMemory => Status::NoMemory,
            _ => Status::Refused(Refusal::Save(error)),
        }
    }
}

impl From<GridTextError> for Status {
    ghost use Rattle.std.specs.Prelude.{◌≡◌};
    ghost use Rattle.tis_cli.specs.Statuses.{grid_status};

    ghost from_gives = { λ error status. status ≡ grid_status error };

    fn from(error: GridTextError) -> Self {
        match error {
            GridTextError::NoMemory => Status::NoMemory,
            _ => Status::Refused(Refusal::Grid(error)),
        }
    }
}

impl From<LuaSyntax> for Status {
    ghost use Rattle.std.specs.Prelude.{◌≡◌};
    ghost use Rattle.tis_cli.specs.Statuses.{chunk_status};

    ghost from_gives = { λ error status. status ≡ chunk_status error };

    fn from(error: LuaSyntax) -> Self {
        match error {
            LuaSyntax::NoMemory => Status::NoMemory,
            _ => Status::Refused(Refusal::Syntax(error)),
        }
    }
}

impl From<PuzzleError> for Status {
    ghost use Rattle.std.specs.Prelude.{◌≡◌};
    ghost use Rattle.tis_cli.specs.Statuses.{puzzle_status};

    ghost from_gives = { λ error status. status ≡ puzzle_status error };

    fn from(error: PuzzleError) -> Self {
        match error {
            PuzzleError::NoMemory => Status::NoMemory,
            _ => Status::Refused(Refusal::Puzzle(error)),
        }
    }
}

impl From<SpecError> for Status {
    ghost use Rattle.std.specs.Prelude.{◌≡◌};
    ghost use Rattle.tis_cli.specs.Statuses.{spec_status};

    ghost from_gives = { λ error status. status ≡ spec_status error };

    fn from(error: SpecError) -> Self {
        match error {
            SpecError::Grid(error) => Status::from(error),
            SpecError::Syntax(error) => Status::from(error),
            SpecError::Puzzle(error) => Status::from(error),
        }
    }
}

impl From<EventsError> for Status {
    ghost use Rattle.std.specs.Prelude.{◌≡◌};
    ghost use Rattle.tis_cli.specs.Statuses.{events_status};

    ghost from_gives = { λ error status. status ≡ events_status error };

    fn from(error: EventsError) -> Self {
        match error {
            EventsError::Bad { line } => Status::Refused(Refusal::Events { line }),
            EventsError::NoMemory => Status::NoMemory,
        }
    }
}

impl From<ScriptError> for Status {
    ghost use Rattle.std.specs.Prelude.{◌≡◌};
    ghost use Rattle.tis_cli.specs.Statuses.{script_status};

    ghost from_gives = { λ error status. status ≡ script_status error };

    fn from(error: ScriptError) -> Self {
        match error {
            ScriptError::Bad { line } => Status::Refused(Refusal::Script { line }),
            ScriptError::NoMemory => Status::NoMemory,
        }
    }
}

impl From<SinkError> for Status {
    ghost use Rattle.std.specs.Prelude.{◌≡◌};
    ghost use Rattle.tis_cli.specs.Statuses.{sink_status};

    ghost from_gives = { λ error status. status ≡ sink_status error };

    fn from(error: SinkError) -> Self {
        match error {
            SinkError::Failed => Status::SinkFault,
            SinkError::NoMemory => Status::NoMemory,
        }
    }
}
