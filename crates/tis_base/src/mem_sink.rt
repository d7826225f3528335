//! A sink in memory.
ghost use Rattle.std.specs.Prelude.{◌≡◌, ◌≢◌, ◌↔◌, ◌++◌, ◌≤◌, [], Contains, pos, Some, OnOk, OnErr, IsErrOf};
ghost use Rattle.tis_base.specs.Outside.{Rose, WrotePrefix};
ghost use Rattle.tis_base.specs.Counts.{one_more};

use crate::calls::Calls;
use crate::sink::{Sink, SinkError};
use crate::values::Values;
use std::alloc::Global;
use std::marker::Model;

/// A sink in memory. It tells what was written, and fails the calls that it is told to fail.
#[derive(Drop)]
pub struct MemSink {
    bytes: Vec<u8>,
    made: Calls,
}

impl Model for MemSink {
    ghost use Rattle.tis_base.specs.MemSink.{Output};

    ghost Value = { Output };

    ghost view = { λ s. record {
      written = s.bytes.items;
      failing = s.made.failing.items;
      calls = s.made.made;
      faults = s.made.faults;
    } };
}

impl MemSink {
    /// An empty sink that fails no call. It takes no memory.
    pub fn honest(alloc: Global) -> MemSink
        ensures { result ≡ record { written = []; failing = []; calls = 0; faults = 0 } }
    {
        MemSink::failing(alloc, Values::new(alloc))
    }

    /// An empty sink that fails exactly the calls with these numbers, counted from 0, so a negative
    /// number fails none. It takes no memory.
    pub fn failing(alloc: Global, calls: Values) -> MemSink
        ensures { result ≡ record { written = []; failing = calls.items; calls = 0; faults = 0 } }
    {
        MemSink {
            bytes: Vec::new(alloc),
            made: Calls::new(calls),
        }
    }

    /// All that was written, in order.
    pub fn written(&self) -> &[u8]
        ensures { result.now ≡ self.now.written }
    {
        &self.bytes
    }
}

impl Sink for MemSink {
    ghost written = { λ s. Some s.written };

    ghost faults = { λ s. s.faults };

    /// Writes these bytes behind those that were written before. A call that is made to fail, and
    /// one for which memory runs out, writes none of them.
    fn put(&mut self, bytes: &[u8]) -> Result<(), SinkError>
        ensures ok { OnOk result (self.new.written ≡ self.old.written ++ bytes.now) }
        ensures err { OnErr result (self.new.written ≡ self.old.written) }
        ensures failed { IsErrOf result SinkError.Failed
            → WrotePrefix (Some self.old.written) bytes.now (Some self.new.written) }
        ensures failed_as_told { IsErrOf result SinkError.Failed
            ↔ Contains self.old.failing (pos self.old.calls) }

        ensures calls { self.new.calls ≡ one_more self.old.calls }
        ensures faults_rise { IsErrOf result SinkError.Failed
            → self.new.faults ≡ one_more self.old.faults }
        ensures faults_stay { result ≢ Err SinkError.Failed → self.new.faults ≡ self.old.faults }
        ensures failed_counted { IsErrOf result SinkError.Failed
            → Rose self.old.faults self.new.faults }
        ensures faults_never_fall { self.old.faults ≤ self.new.faults }

        ensures failing_stay { self.new.failing ≡ self.old.failing }
    {
        if self.made.is_next_failing() {
            return Err(SinkError::Failed);
        }
        self.bytes.extend_from_slice(bytes)?;
        Ok(())
    }
}
