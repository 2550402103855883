// A verdict: what a site knows of a transaction's outcome.
ghost use Rattle.std.specs.Prelude.{◌≡◌};
ghost use Rattle.records.specs.Present.{verdict_present};

use crate::size::Size;
use terms::outcome::Outcome;

#[derive(Clone, Copy, Debug, PartialEq, Eq)]
pub struct Verdict {
    pub time: u32,
    pub outcome: Outcome,
}

impl Verdict {
    // Whether the record is in range; otherwise it counts as absent.
    pub fn present(&self, size: Size) -> bool
        ensures { result ≡ verdict_present size self.now }
    {
        size.has_time(self.time)
    }
}
