// The search for a verdict.
ghost use Rattle.std.specs.Prelude.{◌≡◌, ◌&&◌, ◌==◌};
ghost use Rattle.std.specs.List.{find};
ghost use Rattle.records.specs.declared.verdict.Verdict.{Verdict};
ghost use Rattle.records.specs.Present.{verdict_present};
ghost use Rattle.knowledge.specs.Knowledge.{known, verdict_on, aborted, committed, seen};

use crate::view::View;
use records::size::Size;
use records::verdict::Verdict;
use terms::outcome::Outcome;

// The first verdict in range on a time.
fn first_on(size: Size, verdicts: &[Verdict], time: u32) -> Option<Verdict>
    ensures { result ≡ find (λ (v : Verdict). verdict_present size v && v.time == time) verdicts.now }
{
    verdicts
        .iter()
        .copied()
        .find(|v| v.present(size) && v.time == time)
}

// The outcome that the verdicts tell of a time: of equal records the first found.
fn verdict_on(size: Size, verdicts: &[Verdict], time: u32) -> Option<Outcome>
    ensures { result ≡ verdict_on size verdicts.now time }
{
    Some(first_on(size, verdicts, time)?.outcome)
}

impl<'a, V: Copy> View<'a, V> {
    // What the site knows of the transaction with this time.
    pub fn known(&self, time: u32) -> Option<Outcome>
        ensures { result ≡ known (seen self.now) time }
    {
        verdict_on(self.table.size, self.verdicts, time)
    }

    // Two names for two outcomes: one function that takes the outcome would be no shorter where it is asked.
    pub fn aborted(&self, time: u32) -> bool
        ensures { result ≡ aborted (seen self.now) time }
    {
        self.known(time) == Some(Outcome::Abort)
    }

    pub fn committed(&self, time: u32) -> bool
        ensures { result ≡ committed (seen self.now) time }
    {
        self.known(time) == Some(Outcome::Commit)
    }
}
