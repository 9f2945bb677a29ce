//! The count of the calls on an object in memory, and which of them fail.

ghost use Rattle.std.specs.Prelude.{◌≡◌, ◌<◌, ◌≤◌, ◌+◌, ◌^◌, ◌||◌, ◌==◌, IsTrue};
ghost use Rattle.std.specs.List.{list_any};
ghost use Rattle.ips_outside.specs.Tally.{fresh, next_fails, after_call};

use std::marker::Model;

/// The count of the calls on an object in memory, numbered from 1 on, of which the listed ones fail, and of those that
/// failed. Both counts stop at their last value, and no call past it is listed.
#[derive(Drop)]
pub struct Calls {
    listed: Vec<u64>,
    made: u64,
    failed: u64,
}

impl Model for Calls {
    ghost use Rattle.std.specs.Prelude.{◌≤◌};
    ghost use Rattle.ips_outside.specs.Tally.{Tally};

    ghost Value = { Tally };

    ghost view = { λ c. record { listed = c.listed.items; made = c.made; failed = c.failed } };

    ghost invariant = { λ c. c.failed ≤ c.made };
}

impl Calls {
    /// A count before the first call, with the numbers of the calls that are to fail.
    pub fn new(listed: Vec<u64>) -> Calls
        ensures { result ≡ fresh listed.items }
    {
        Calls {
            listed,
            made: 0,
            failed: 0,
        }
    }

    /// How many calls were made.
    pub fn made(&self) -> u64
        ensures { result ≡ self.now.made }
    {
        self.made
    }

    /// Whether the next call is listed.
    pub fn next_fails(&self) -> bool
        ensures { result ≡ next_fails self.now }
    {
        is_listed(&self.listed, self.made)
    }

    /// Counts a call, and answers whether it fails: where it is listed, or refused for a cause of its own.
    pub fn fails(&mut self, refused: bool) -> bool
        ensures fails { result ≡ (next_fails self.old || refused) }
        ensures counted { self.new ≡ after_call result self.old }
        ensures bounded { self.old.failed < 2 ^ 64 }
        ensures uncapped { IsTrue (next_fails self.old) → self.old.failed + 1 < 2 ^ 64 }
    {
        let failed = is_listed(&self.listed, self.made) || refused;
        self.made = self.made.saturating_add(1);
        if failed {
            self.failed = self.failed.saturating_add(1);
        }
        failed
    }
}

// Whether the call after so many is listed. No number past the counter's last value is.
fn is_listed(listed: &[u64], made: u64) -> bool
    ensures listed { result ≡ list_any (λ n. n == made + 1) listed.now }
    ensures uncapped { IsTrue result → made + 1 < 2 ^ 64 }
{
    match made.checked_add(1) {
        Some(number) => listed.contains(&number),
        None => false,
    }
}
