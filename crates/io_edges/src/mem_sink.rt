//! A sink in memory, for tests and for proofs: it shows its bytes, and fails at the calls that it was told to.

ghost use Rattle.std.specs.Prelude.{◌≡◌, ◌≤◌, [], is_some, is_ok, if◌then◌else◌, IsErr, OnOk, OnErr, Contains, Some};
ghost use Rattle.std.specs.Io.KnownBytes.{Appends};
ghost use Rattle.span_types.specs.Faults.{Rose};
ghost use Rattle.io_edges.specs.Devices.{AppendsPrefix};
ghost use Rattle.io_edges.specs.Memory.{one_more};

use crate::devices::Sink;
use span_types::{Calls, Failed};
use std::alloc::Global;
use std::marker::Model;

/// A sink that keeps its bytes in memory. Each listed call fails, counted from 1; any other fails only if memory runs
/// out for its own growth, which it counts apart. A failing call takes nothing.
#[derive(Debug, Drop)]
pub struct MemSink {
    taken: Vec<u8>,
    failing: Calls,
    calls: u64,
    faults: u64,
    starved: u64,
}

impl Model for MemSink {
    ghost use Rattle.io_edges.specs.Memory.{SinkState};

    ghost Value = { SinkState };

    ghost view = { λ s. record {
      taken = s.taken.items;
      failing = s.failing;
      calls = s.calls;
      faults = s.faults;
      starved = s.starved;
    } };
}

impl MemSink {
    /// An empty sink, whose calls fail where their number is listed.
    pub fn new(alloc: Global, failing: Calls) -> MemSink
        ensures { result ≡ record { taken = []; failing = failing; calls = 0; faults = 0; starved = 0 } }
    {
        MemSink {
            taken: Vec::new(alloc),
            failing,
            calls: 0,
            faults: 0,
            starved: 0,
        }
    }

    /// The bytes taken so far.
    pub fn taken(&self) -> &[u8]
        ensures { result.now ≡ self.now.taken }
    {
        self.taken.as_slice()
    }

    /// How many calls failed because a growth of the sink's own was refused.
    pub fn starved(&self) -> u64
        ensures { result ≡ self.now.starved }
    {
        self.starved
    }
}

impl Sink for MemSink {
    ghost taken = { λ s. Some s.taken };

    ghost faults = { λ s. s.faults };

    fn put(&mut self, bytes: &[u8]) -> Result<(), Failed>
        ensures whole { OnOk result
            (Appends (Some self.old.taken) (Some self.new.taken) bytes.now) }
        ensures part { OnErr result
            (AppendsPrefix (Some self.old.taken) (Some self.new.taken) bytes.now) }
        ensures tells { is_some (Some self.new.taken) ≡ is_some (Some self.old.taken) }
        ensures counted { self.old.faults ≤ self.new.faults }
        ensures failed { OnErr result (Rose self.old.faults self.new.faults) }

        // It fails at each listed call, and elsewhere only where a growth was refused, which is counted.
        ensures listed { Contains self.old.failing self.new.calls → IsErr result }
        ensures refused { OnErr result (¬ Contains self.old.failing self.new.calls
            → self.new.starved ≡ one_more self.old.starved) }
        ensures not_refused { Contains self.old.failing self.new.calls
            → self.new.starved ≡ self.old.starved }
        ensures grown { OnOk result (self.new.starved ≡ self.old.starved) }
        ensures numbered { self.new.calls ≡ one_more self.old.calls }
        ensures same_list { self.new.failing ≡ self.old.failing }
        ensures kept { OnErr result (self.new.taken ≡ self.old.taken) }
        ensures by_one { self.new.faults
            ≡ (if is_ok result then self.old.faults else one_more self.old.faults) }
    {
        self.calls = self.calls.saturating_add(1);
        let listed = self.failing.as_slice().contains(&self.calls);
        if !listed && self.taken.extend_from_slice(bytes).is_ok() {
            return Ok(());
        }
        if !listed {
            self.starved = self.starved.saturating_add(1);
        }
        self.faults = self.faults.saturating_add(1);
        Err(Failed)
    }
}
