//! Which calls of a disk in memory are to fail.

ghost use Rattle.std.specs.Prelude.{◌≡◌, ◌==◌, []};
ghost use Rattle.std.specs.List.{list_any};
ghost use Rattle.disk_model.specs.Script.{is_spent, fate_of, counted};

use span_types::Calls;
use std::alloc::Global;

/// What becomes of a call.
#[derive(Clone, Copy, Debug, PartialEq, Eq)]
pub enum Fate {
    Passes,
    /// It fails, and leaves its change pending.
    Listed,
    /// It fails, and changes nothing.
    Stopped,
}

/// The numbers of the calls that fail, how many calls were made since they were given, and how many calls are left
/// before all fail.
#[derive(Drop)]
pub struct Script {
    pub listed: Calls,
    pub made: u64,
    pub left: Option<u64>,
}

impl Script {
    /// No call fails.
    pub fn clear(alloc: Global) -> Script
        ensures { result ≡ record { listed = []; made = 0; left = None } }
    {
        Script {
            listed: Calls::of(Vec::new(alloc)),
            made: 0,
            left: None,
        }
    }

    /// Counts a call, and answers what becomes of it.
    pub fn next(&mut self) -> Fate
        ensures fate { result ≡ fate_of self.old }
        ensures counted { self.new ≡ counted self.old }
    {
        let fate = self.fate();
        self.made = self.made.saturating_add(1);
        if let Some(left) = self.left {
            self.left = Some(left.saturating_sub(1));
        }
        fate
    }

    /// What becomes of the next call.
    fn fate(&self) -> Fate
        ensures { result ≡ fate_of self.now }
    {
        if is_spent(self.left) {
            return Fate::Stopped;
        }
        if is_listed(self.listed.as_slice(), self.made.saturating_add(1)) {
            return Fate::Listed;
        }
        Fate::Passes
    }
}

fn is_spent(left: Option<u64>) -> bool
    ensures { result ≡ is_spent left }
{
    match left {
        None => false,
        Some(left) => left == 0,
    }
}

fn is_listed(listed: &[u64], number: u64) -> bool
    ensures { result ≡ list_any (λ n. n == number) listed.now }
{
    listed.iter().any(|n| *n == number)
}
