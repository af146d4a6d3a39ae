//! The traits of the outside: where bytes come from, where they go, the time, and the gate that tests hold.

ghost use Rattle.std.specs.Prelude.{◌≡◌, ◌≤◌, List, ℕ, Option, length, is_some, IfOk, OnOk, OnErr};
ghost use Rattle.std.specs.Option.{option_map, ForSome};
ghost use Rattle.std.specs.Io.KnownBytes.{Appends, ReadConsumes};
ghost use Rattle.span_types.specs.Faults.{Rose};
ghost use Rattle.io_edges.specs.Devices.{AppendsPrefix, first_moment, later_moments};

use span_types::Failed;

/// Gives bytes in order, as standard input does.
pub trait Source {
    // The bytes that remain, where the source shows them.
    ghost left: { Self → Option (List ℕ) };

    // How many calls failed so far.
    ghost faults: { Self → ℕ };

    /// Fills the front of `buf` with the bytes that come next, and says how many they are. A buffer with room that is
    /// given none tells that the input has ended. A call that fails takes nothing.
    fn take(&mut self, buf: &mut [u8]) -> Result<usize, Failed>
        ensures within { IfOk result (λ count. count ≤ length buf.new) }
        ensures bytes { ReadConsumes (left self.old) (left self.new) result buf.new }
        ensures tells { is_some (left self.new) ≡ is_some (left self.old) }
        ensures counted { faults self.old ≤ faults self.new }
        ensures failed { OnErr result (Rose (faults self.old) (faults self.new)) };
}

/// Takes bytes in order, as standard output does.
pub trait Sink {
    // The bytes taken, where the sink shows them.
    ghost taken: { Self → Option (List ℕ) };

    // How many calls failed so far.
    ghost faults: { Self → ℕ };

    /// Takes all of `bytes`, or fails after a first part of them, which may be none or all.
    fn put(&mut self, bytes: &[u8]) -> Result<(), Failed>
        ensures whole { OnOk result (Appends (taken self.old) (taken self.new) bytes.now) }
        ensures part { OnErr result (AppendsPrefix (taken self.old) (taken self.new) bytes.now) }
        ensures tells { is_some (taken self.new) ≡ is_some (taken self.old) }
        ensures counted { faults self.old ≤ faults self.new }
        ensures failed { OnErr result (Rose (faults self.old) (faults self.new)) };
}

/// Gives moments.
pub trait Clock {
    // The moments that are to be given, where the clock shows them.
    ghost moments: { Self → Option (List ℕ) };

    /// The moment, in nanoseconds. A clock that shows its moments gives the first of them, which then goes where
    /// another follows it, and 0 where there is none.
    fn now(&mut self) -> u64
        ensures moment { ForSome (moments self.old) (λ told. result ≡ first_moment told) }
        ensures later { moments self.new ≡ option_map later_moments (moments self.old) };
}

/// Is passed at certain points of a program that runs in threads, so that a test can hold one of them there.
pub trait Gate: Sync {
    /// Passes the point with this number. In a program it does nothing.
    fn pass(&self, point: u32);
}

/// The gate that returns at once.
#[derive(Clone, Copy, Debug)]
pub struct OpenGate;

impl Gate for OpenGate {
    fn pass(&self, _point: u32) {}
}
