//! A store in memory.
ghost use Rattle.std.specs.Prelude.{◌≡◌, ◌≢◌, ◌↔◌, ◌≤◌, [], Contains, pos, Some, None, IfOk, OnOk, OnErr, IsErrOf, IsSome, option_copied};
ghost use Rattle.std.specs.FinMap as finite;
ghost use Rattle.tis_base.specs.Outside.{text_at, with_text, Rose};
ghost use Rattle.tis_base.specs.Counts.{one_more};
ghost use Rattle.tis_base.specs.MemStore.{texts_of};

use crate::calls::Calls;
use crate::memory::NoMemory;
use crate::store::{Store, StoreError};
use crate::values::Values;
use std::alloc::Global;
use std::collections::BTreeMap;
use std::marker::Model;

/// A store in memory. It tells its texts, and fails the calls that it is told to fail.
#[derive(Drop)]
pub struct MemStore {
    alloc: Global,
    entries: BTreeMap<String, Vec<u8>>,
    made: Calls,
    misses: u64,
}

impl Model for MemStore {
    ghost use Rattle.tis_base.specs.MemStore.{Contents, contents_code, texts_of};

    ghost Value = { Contents };

    ghost coded = { contents_code };

    ghost view = { λ s. record {
      texts = texts_of s.entries.entries;
      failing = s.made.failing.items;
      calls = s.made.made;
      faults = s.made.faults;
      misses = s.misses;
    } };
}

// The bytes under a name.
fn find<'a>(entries: &'a BTreeMap<String, Vec<u8>>, name: &str) -> Option<&'a [u8]>
    ensures { option_copied result ≡ text_at (texts_of entries.now.entries) name.now }
{
    match entries.get(name) {
        Some(bytes) => Some(bytes.as_slice()),
        None => None,
    }
}

// Puts these bytes under a name.
fn put(
    entries: &mut BTreeMap<String, Vec<u8>>,
    alloc: Global,
    name: &str,
    bytes: &[u8],
) -> Result<(), NoMemory>
    ensures ok { OnOk result (texts_of entries.new.entries
        ≡ with_text (texts_of entries.old.entries) name.now bytes.now) }
    ensures err { OnErr result (texts_of entries.new.entries ≡ texts_of entries.old.entries) }
{
    let name = String::from_str(alloc, name)?;
    let bytes = bytes.to_vec(alloc)?;
    entries.insert(name, bytes)?;
    Ok(())
}

impl MemStore {
    /// An empty store that fails no call. It takes no memory.
    pub fn honest(alloc: Global) -> MemStore
        ensures { result
            ≡ record { texts = finite.empty; failing = []; calls = 0; faults = 0; misses = 0 } }
    {
        MemStore::failing(alloc, Values::new(alloc))
    }

    /// An empty store that fails exactly the calls with these numbers. Fetches and keeps are
    /// counted together from 0, so a negative number fails none. It takes no memory.
    pub fn failing(alloc: Global, calls: Values) -> MemStore
        ensures { result ≡ record {
          texts = finite.empty;
          failing = calls.items;
          calls = 0;
          faults = 0;
          misses = 0;
        } }
    {
        MemStore {
            alloc,
            entries: BTreeMap::new(alloc),
            made: Calls::new(calls),
            misses: 0,
        }
    }

    /// Puts these bytes under a name. It is no call: nothing is counted, and it isn't made to fail.
    /// Want of memory leaves the store as it was.
    pub fn set(&mut self, name: &str, bytes: &[u8]) -> Result<(), NoMemory>
        ensures ok { OnOk result (self.new
            ≡ record self.old { texts = with_text self.old.texts name.now bytes.now }) }
        ensures err { OnErr result (self.new ≡ self.old) }
    {
        put(&mut self.entries, self.alloc, name, bytes)
    }

    /// The bytes under a name, or None where it isn't there. It is no call: nothing is counted.
    pub fn get(&self, name: &str) -> Option<&[u8]>
        ensures { option_copied result ≡ text_at self.now.texts name.now }
    {
        find(&self.entries, name)
    }
}

impl Store for MemStore {
    ghost texts = { λ s. Some s.texts };

    ghost faults = { λ s. s.faults };

    ghost misses = { λ s. s.misses };

    /// The bytes under a name. A call that is made to fail is a fault, also where the name isn't
    /// there. The bytes are a copy, for which memory can run out.
    fn fetch(&mut self, alloc: Global, name: &str) -> Result<Vec<u8>, StoreError>
        ensures ok { IfOk result (λ bytes. text_at self.old.texts name.now ≡ Some bytes.items) }
        ensures missing { IsErrOf result StoreError.Missing
            ↔ ((text_at self.old.texts name.now ≡ None)
            × (¬ Contains self.old.failing (pos self.old.calls))) }
        ensures failed_as_told { IsErrOf result StoreError.Failed
            ↔ Contains self.old.failing (pos self.old.calls) }
        ensures no_memory { IsErrOf result StoreError.NoMemory
            → IsSome (text_at self.old.texts name.now) }

        ensures calls { self.new.calls ≡ one_more self.old.calls }
        ensures faults_rise { IsErrOf result StoreError.Failed
            → self.new.faults ≡ one_more self.old.faults }
        ensures faults_stay { result ≢ Err StoreError.Failed → self.new.faults ≡ self.old.faults }
        ensures misses_rise { IsErrOf result StoreError.Missing
            → self.new.misses ≡ one_more self.old.misses }
        ensures misses_stay { result ≢ Err StoreError.Missing → self.new.misses ≡ self.old.misses }
        ensures missing_counted { IsErrOf result StoreError.Missing
            → Rose self.old.misses self.new.misses }
        ensures failed_counted { IsErrOf result StoreError.Failed
            → Rose self.old.faults self.new.faults }
        ensures faults_never_fall { self.old.faults ≤ self.new.faults }
        ensures misses_never_fall { self.old.misses ≤ self.new.misses }

        ensures texts_stay { self.new.texts ≡ self.old.texts }
        ensures failing_stay { self.new.failing ≡ self.old.failing }
    {
        if self.made.is_next_failing() {
            return Err(StoreError::Failed);
        }
        match find(&self.entries, name) {
            Some(bytes) => Ok(bytes.to_vec(alloc)?),
            None => {
                self.misses = self.misses.saturating_add(1);
                Err(StoreError::Missing)
            }
        }
    }

    /// Puts these bytes under a name, in the place of those that were there. A fault and want of
    /// memory leave the texts as they were.
    fn keep(&mut self, name: &str, bytes: &[u8]) -> Result<(), StoreError>
        ensures ok { OnOk result (self.new.texts ≡ with_text self.old.texts name.now bytes.now) }
        ensures err { OnErr result (self.new.texts ≡ self.old.texts) }
        ensures never_missing { result ≢ Err StoreError.Missing }
        ensures failed_as_told { IsErrOf result StoreError.Failed
            ↔ Contains self.old.failing (pos self.old.calls) }

        ensures calls { self.new.calls ≡ one_more self.old.calls }
        ensures faults_rise { IsErrOf result StoreError.Failed
            → self.new.faults ≡ one_more self.old.faults }
        ensures faults_stay { result ≢ Err StoreError.Failed → self.new.faults ≡ self.old.faults }
        ensures failed_counted { IsErrOf result StoreError.Failed
            → Rose self.old.faults self.new.faults }
        ensures faults_never_fall { self.old.faults ≤ self.new.faults }

        ensures misses_stay { self.new.misses ≡ self.old.misses }
        ensures failing_stay { self.new.failing ≡ self.old.failing }
    {
        if self.made.is_next_failing() {
            return Err(StoreError::Failed);
        }
        put(&mut self.entries, self.alloc, name, bytes)?;
        Ok(())
    }
}
