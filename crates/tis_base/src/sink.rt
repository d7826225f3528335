//! The outside that takes a report.
ghost use Rattle.std.specs.Prelude.{◌≡◌, ◌≢◌, ◌≤◌, ◌++◌, ℕ, List, Option, option_map, IfSome, OnOk, IsErrOf};
ghost use Rattle.tis_base.specs.Outside.{Rose, WrotePrefix};
ghost use Rattle.tis_base.specs.declared.sink.SinkError.TheVariants.{NoMemory as no_memory};

use crate::memory::NoMemory;
use std::alloc::{AllocError, AllocFailed};

/// Why a sink didn't take what it was given.
#[derive(Clone, Copy, Debug, PartialEq, Eq, Hash)]
pub enum SinkError {
    /// The sink failed.
    Failed,
    /// Memory ran out.
    NoMemory,
}

impl From<NoMemory> for SinkError {
    ghost from_gives = { λ _ e. e ≡ no_memory };

    fn from(_: NoMemory) -> Self {
        SinkError::NoMemory
    }
}

impl From<AllocError> for SinkError {
    ghost from_gives = { λ _ e. e ≡ no_memory };

    fn from(_: AllocError) -> Self {
        SinkError::NoMemory
    }
}

impl<T: Drop> From<AllocFailed<T>> for SinkError {
    ghost from_gives = { λ _ e. e ≡ no_memory };

    fn from(_: AllocFailed<T>) -> Self {
        SinkError::NoMemory
    }
}

/// A sink of bytes, as standard output is one.
pub trait Sink {
    /// The bytes that were written, where the sink tells them.
    ghost written: { Self → Option (List ℕ) };

    /// How often the sink has failed. At 2^64 - 1 it counts no further.
    ghost faults: { Self → ℕ };

    /// Writes these bytes behind those that were written before.
    fn put(&mut self, bytes: &[u8]) -> Result<(), SinkError>
        ensures ok { OnOk result (written self.new ≡ option_map (λ w. w ++ bytes.now) (written self.old)) }
        ensures failed { IsErrOf result SinkError.Failed → WrotePrefix (written self.old) bytes.now (written self.new) }
        ensures failed_counted { IsErrOf result SinkError.Failed → Rose (faults self.old) (faults self.new) }
        ensures no_memory { IsErrOf result SinkError.NoMemory → written self.new ≡ written self.old }
        ensures faults_stay { result ≢ Err SinkError.Failed → faults self.new ≡ faults self.old }
        ensures faults_never_fall { faults self.old ≤ faults self.new };
}
