//! Limits on the widths of steps.

ghost use Rattle.std.specs.Prelude.{◌≡◌};

use monitor::Monitor;

/// The most that a width may be, and the monitor, if there is one, that shows how many states there are so far.
#[derive(Clone, Copy)]
pub struct Limit<'a> {
    /// The most that a width may be.
    pub most: u32,
    monitor: Option<&'a Monitor>,
}

impl<'a> Limit<'a> {
    /// A limit where nothing is shown.
    pub fn new(most: u32) -> Self
        ensures { result.most ≡ most }
    {
        Limit {
            most,
            monitor: None,
        }
    }

    /// No limit but the greatest number of states, where nothing is shown.
    pub fn none() -> Self
        ensures { result.most ≡ 4294967295 }
    {
        Limit {
            most: u32::MAX,
            monitor: None,
        }
    }

    /// A limit where a monitor, if there is one, shows how many states there are.
    pub(crate) fn shown(most: u32, monitor: Option<&'a Monitor>) -> Self
        ensures { result.most ≡ most }
    {
        Limit { most, monitor }
    }

    /// Says how many states there are so far.
    pub fn states(self, count: usize) {
        if let Some(monitor) = self.monitor {
            monitor.states(count);
        }
    }
}
