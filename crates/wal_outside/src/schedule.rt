// Which calls of an object in memory are to fail.
ghost use Rattle.std.specs.Prelude.{◌≡◌, ◌≤◌, true};
ghost use Rattle.wal_outside.specs.Causes.{one_more, CountsFault};
ghost use Rattle.wal_outside.specs.Schedules.{fails_next, IsFresh};

/// The calls that an object in memory had, and the numbers of those that are to fail.
#[derive(Drop)]
pub struct Schedule {
    /// The numbers of the calls that are to fail; the first call has the number 1.
    failing: Vec<u64>,
    /// How many calls there were.
    pub calls: u64,
    /// How many faults there were.
    pub faults: u64,
}

impl Schedule {
    pub fn new(failing: Vec<u64>) -> Self
        ensures { IsFresh result failing.items }
    {
        Schedule {
            failing,
            calls: 0,
            faults: 0,
        }
    }

    /// Counts a call, and says whether it is one that is to fail.
    pub fn next_fails(&mut self) -> bool
        ensures value { result ≡ fails_next self.old }
        ensures counted { self.new ≡ record self.old { calls = one_more self.old.calls } }
    {
        self.calls = self.calls.saturating_add(1);
        self.failing.contains(&self.calls)
    }

    /// Counts a fault.
    pub fn count_fault(&mut self)
        ensures value { self.new ≡ record self.old { faults = one_more self.old.faults } }
        ensures rose { CountsFault true self.old.faults self.new.faults }
    {
        self.faults = self.faults.saturating_add(1);
    }
}
