//! A folder of files as a store.
ghost use Rattle.std.specs.Prelude.{◌≡◌, ◌≢◌, ◌≤◌, None, IfOk, IsErrOf, vec_len};
ghost use Rattle.tis_base.specs.Outside.{Rose};
ghost use Rattle.tis_base.specs.Counts.{one_more};

use crate::store::{Store, StoreError};
use crate::transfer::{read_all, write_all};
use crate::turns::{cause_of, cause_of_open};
use std::alloc::Global;
use std::fs;
use std::marker::Model;
use std::rt::Files;

/// The files of a system, by their names. What they hold can change at any time, so it tells no
/// text.
#[derive(Drop)]
pub struct FileStore<'a, R> {
    rt: &'a R,
    faults: u64,
    misses: u64,
}

impl<'a, R> Model for FileStore<'a, R> {
    ghost use Rattle.tis_base.specs.Tally.{Tally};

    ghost Value = { Tally };

    ghost view = { λ s. record { faults = s.faults; misses = s.misses } };
}

// Reads the file with a name. Only where the file isn't there the name is missing.
fn read_file<R: Files>(rt: &R, alloc: Global, name: &str) -> Result<Vec<u8>, StoreError>
    ensures fits { IfOk result (λ bytes. vec_len bytes ≤ 16777216) }
{
    match fs::open(rt, name) {
        Ok(mut file) => read_all(alloc, &mut file),
        Err(error) => Err(cause_of_open(error.kind())),
    }
}

// Writes the file with a name, which is made where it isn't there.
fn write_file<R: Files>(rt: &R, name: &str, bytes: &[u8]) -> Result<(), StoreError>
    ensures never_missing { result ≢ Err StoreError.Missing }
{
    match fs::create(rt, name) {
        Ok(mut file) => write_all(&mut file, bytes).map_err(cause_of),
        Err(error) => Err(cause_of(error.kind())),
    }
}

impl<'a, R> FileStore<'a, R> {
    /// The files of this system, with nothing counted yet.
    pub fn new(rt: &'a R) -> FileStore<'a, R>
        ensures { result ≡ record { faults = 0; misses = 0 } }
    {
        FileStore {
            rt,
            faults: 0,
            misses: 0,
        }
    }

    // Counts an answer that is a fault or a miss.
    fn count(&mut self, error: StoreError)
        ensures failed { error ≡ StoreError.Failed
            → self.new ≡ record self.old { faults = one_more self.old.faults } }
        ensures missing { error ≡ StoreError.Missing
            → self.new ≡ record self.old { misses = one_more self.old.misses } }
        ensures no_memory { error ≡ StoreError.NoMemory → self.new ≡ self.old }
        ensures faults_never_fall { self.old.faults ≤ self.new.faults }
        ensures misses_never_fall { self.old.misses ≤ self.new.misses }
    {
        match error {
            StoreError::Failed => self.faults = self.faults.saturating_add(1),
            StoreError::Missing => self.misses = self.misses.saturating_add(1),
            StoreError::NoMemory => {}
        }
    }
}

impl<R: Files> Store for FileStore<'_, R> {
    ghost texts = { λ _. None };

    ghost faults = { λ s. s.faults };

    ghost misses = { λ s. s.misses };

    /// The bytes of the file with this name, if there are no more than 16 MiB. A file that isn't
    /// there to be opened is missing. Anything else that goes wrong, but for want of memory, is a
    /// fault.
    fn fetch(&mut self, alloc: Global, name: &str) -> Result<Vec<u8>, StoreError>
        ensures fits { IfOk result (λ bytes. vec_len bytes ≤ 16777216) }
        ensures faults_rise { IsErrOf result StoreError.Failed
            → self.new.faults ≡ one_more self.old.faults }
        ensures faults_stay { result ≢ Err StoreError.Failed → self.new.faults ≡ self.old.faults }
        ensures misses_rise { IsErrOf result StoreError.Missing
            → self.new.misses ≡ one_more self.old.misses }
        ensures misses_stay { result ≢ Err StoreError.Missing → self.new.misses ≡ self.old.misses }
        ensures missing_counted { IsErrOf result StoreError.Missing
            → Rose self.old.misses self.new.misses }
        ensures failed_counted { IsErrOf result StoreError.Failed
            → Rose self.old.faults self.new.faults }
        ensures faults_never_fall { self.old.faults ≤ self.new.faults }
        ensures misses_never_fall { self.old.misses ≤ self.new.misses }
    {
        match read_file(self.rt, alloc, name) {
            Ok(bytes) => Ok(bytes),
            Err(error) => {
                self.count(error);
                Err(error)
            }
        }
    }

    /// Puts these bytes into the file with this name, in the place of what was there. Anything that
    /// goes wrong, but for want of memory, is a fault, as a folder that isn't there, and the file
    /// may then be cut short.
    fn keep(&mut self, name: &str, bytes: &[u8]) -> Result<(), StoreError>
        ensures never_missing { result ≢ Err StoreError.Missing }
        ensures faults_rise { IsErrOf result StoreError.Failed
            → self.new.faults ≡ one_more self.old.faults }
        ensures faults_stay { result ≢ Err StoreError.Failed → self.new.faults ≡ self.old.faults }
        ensures misses_stay { self.new.misses ≡ self.old.misses }
        ensures failed_counted { IsErrOf result StoreError.Failed
            → Rose self.old.faults self.new.faults }
        ensures faults_never_fall { self.old.faults ≤ self.new.faults }
    {
        match write_file(self.rt, name, bytes) {
            Ok(()) => Ok(()),
            Err(error) => {
                self.count(error);
                Err(error)
            }
        }
    }
}
