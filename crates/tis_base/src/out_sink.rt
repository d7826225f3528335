//! Standard output as a sink.
ghost use Rattle.std.specs.Prelude.{◌≡◌, ◌≢◌, ◌≤◌, None, OnErr, IsErrOf, IsOkUnless};
ghost use Rattle.tis_base.specs.Outside.{Rose, WrotePrefix};
ghost use Rattle.tis_base.specs.Counts.{one_more};

use crate::sink::{Sink, SinkError};
use crate::transfer::write_all;
use std::io;
use std::marker::Model;

/// What prints, as a sink. It can't tell what was written.
#[derive(Drop)]
pub struct OutSink<'a, R> {
    rt: &'a R,
    faults: u64,
}

impl<'a, R> Model for OutSink<'a, R> {
    ghost use Rattle.std.specs.Prelude.{ℕ};

    ghost Value = { ℕ };

    ghost view = { λ s. s.faults };
}

impl<'a, R> OutSink<'a, R> {
    /// A sink that prints, with no fault counted yet.
    pub fn new(rt: &'a R) -> OutSink<'a, R>
        ensures { result ≡ 0 }
    {
        OutSink { rt, faults: 0 }
    }
}

impl<R: Print> Sink for OutSink<'_, R> {
    ghost written = { λ _. None };

    ghost faults = { λ s. s };

    /// Prints these bytes. Anything that goes wrong is a fault, after which some of them may have
    /// been printed. It keeps no byte back, so there is nothing to flush.
    fn put(&mut self, bytes: &[u8]) -> Result<(), SinkError>
        ensures failed { IsErrOf result SinkError.Failed → WrotePrefix None bytes.now None }
        ensures only_failed { IsOkUnless result SinkError.Failed }
        ensures faults_rise { OnErr result (self.new ≡ one_more self.old) }
        ensures faults_stay { result ≢ Err SinkError.Failed → self.new ≡ self.old }
        ensures failed_counted { IsErrOf result SinkError.Failed → Rose self.old self.new }
        ensures faults_never_fall { self.old ≤ self.new }
    {
        match write_all(&mut io::writer(self.rt), bytes) {
            Ok(()) => Ok(()),
            Err(_) => {
                self.faults = self.faults.saturating_add(1);
                Err(SinkError::Failed)
            }
        }
    }
}
