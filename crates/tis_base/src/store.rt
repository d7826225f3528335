//! The outside that keeps texts under names.
ghost use Rattle.std.specs.Prelude.{◌≡◌, ◌≤◌, ℕ, Option, Some, None, option_map, IfOk, IfSome, OnOk, OnErr, IsErrOf, ◌≢◌};
ghost use Rattle.tis_base.specs.Outside.{Texts, text_at, with_text, Rose};
ghost use Rattle.tis_base.specs.declared.store.StoreError.TheVariants.{NoMemory as no_memory};

use crate::memory::NoMemory;
use std::alloc::{AllocError, AllocFailed, Global};

/// Why a store didn't answer with what was asked.
#[derive(Clone, Copy, Debug, PartialEq, Eq, Hash)]
pub enum StoreError {
    /// Nothing stands under the name.
    Missing,
    /// The store failed.
    Failed,
    /// Memory ran out.
    NoMemory,
}

impl From<NoMemory> for StoreError {
    ghost from_gives = { λ _ e. e ≡ no_memory };

    fn from(_: NoMemory) -> Self {
        StoreError::NoMemory
    }
}

impl From<AllocError> for StoreError {
    ghost from_gives = { λ _ e. e ≡ no_memory };

    fn from(_: AllocError) -> Self {
        StoreError::NoMemory
    }
}

impl<T: Drop> From<AllocFailed<T>> for StoreError {
    ghost from_gives = { λ _ e. e ≡ no_memory };

    fn from(_: AllocFailed<T>) -> Self {
        StoreError::NoMemory
    }
}

/// A store of texts under names, as a folder is one.
pub trait Store {
    /// The texts, where the store tells them.
    ghost texts: { Self → Option Texts };

    /// How often the store has failed. At 2^64 - 1 it counts no further.
    ghost faults: { Self → ℕ };

    /// How often a name wasn't there. At 2^64 - 1 it counts no further.
    ghost misses: { Self → ℕ };

    /// The bytes under a name. The texts stay as they are. Each count rises with its own answer
    /// alone.
    fn fetch(&mut self, alloc: Global, name: &str) -> Result<Vec<u8>, StoreError>
        ensures ok { IfOk result (λ bytes. IfSome (texts self.old) (λ t. text_at t name.now ≡ Some bytes.items)) }
        ensures missing { IsErrOf result StoreError.Missing → IfSome (texts self.old) (λ t. text_at t name.now ≡ None) }
        ensures missing_counted { IsErrOf result StoreError.Missing → Rose (misses self.old) (misses self.new) }
        ensures failed_counted { IsErrOf result StoreError.Failed → Rose (faults self.old) (faults self.new) }
        ensures texts_stay { texts self.new ≡ texts self.old }
        ensures faults_stay { result ≢ Err StoreError.Failed → faults self.new ≡ faults self.old }
        ensures misses_stay { result ≢ Err StoreError.Missing → misses self.new ≡ misses self.old }
        ensures faults_never_fall { faults self.old ≤ faults self.new }
        ensures misses_never_fall { misses self.old ≤ misses self.new };

    /// Puts these bytes under a name. An error leaves a told store's texts as they were. No name
    /// is looked for, so that none is missed.
    fn keep(&mut self, name: &str, bytes: &[u8]) -> Result<(), StoreError>
        ensures ok { OnOk result (texts self.new ≡ option_map (λ t. with_text t name.now bytes.now) (texts self.old)) }
        ensures err { OnErr result (texts self.new ≡ texts self.old) }
        ensures never_missing { result ≢ Err StoreError.Missing }
        ensures failed_counted { IsErrOf result StoreError.Failed → Rose (faults self.old) (faults self.new) }
        ensures faults_stay { result ≢ Err StoreError.Failed → faults self.new ≡ faults self.old }
        ensures misses_stay { misses self.new ≡ misses self.old }
        ensures faults_never_fall { faults self.old ≤ faults self.new };
}
