// The size of a sitting: n sites and at most T transactions.
ghost use Rattle.std.specs.Prelude.{◌≡◌};
ghost use Rattle.records.specs.Present.{time_in_range};

use terms::time::VirtualTime;

#[derive(Clone, Copy, Debug, PartialEq, Eq)]
pub struct Size {
    pub sites: u32,
    pub transactions: u32,
}

impl Size {
    // A time that a transaction of this sitting may have: a counter from 1 to T and a site that is there.
    pub fn has_time(self, time: u32) -> bool
        ensures { result ≡ time_in_range self time }
    {
        let parts = VirtualTime::from(time);
        0 < parts.counter && parts.counter <= self.transactions && parts.site < self.sites
    }
}
