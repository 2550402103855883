// The versions of a card at one site, its current and its committed value.
ghost use Rattle.std.specs.Prelude.{◌≡◌, fold};
ghost use Rattle.knowledge.specs.Knowledge.{seen, known, stands};
ghost use Rattle.knowledge.specs.Versions.{written, taken_in, highest, versions, current, committed_value};

use crate::view::View;
use records::line::Line;
use terms::mode;
use terms::outcome::Outcome;

// A value of a card and the virtual time at which it was written.
#[derive(Clone, Copy, Debug, PartialEq, Eq)]
pub struct Version<V> {
    pub time: u32,
    pub value: V,
}

impl<'a, V: Copy> View<'a, V> {
    // The current value of a card: the first version of highest time; none if there is no such card.
    pub fn current(&self, number: u32) -> Option<Version<V>>
        ensures { result ≡ current (seen self.now) number }
    {
        self.highest(number, false)
    }

    // The committed value of a card: the highest among the opening value and the versions known as committed; none
    // if there is no such card.
    pub fn committed_value(&self, number: u32) -> Option<Version<V>>
        ensures { result ≡ committed_value (seen self.now) number }
    {
        self.highest(number, true)
    }

    // The first version of highest time, of all or, where `settled`, of those known as committed, as the definition has
    // it.
    fn highest(&self, number: u32, settled: bool) -> Option<Version<V>>
        ensures { result ≡ highest (versions (seen self.now) settled number) }
    {
        let card = self.table.find(number)?;
        let opening = Version {
            time: 0,
            value: card.opening,
        };
        Some(self.best_from(number, settled, opening))
    }

    // The best of a version and those among the landed lines.
    fn best_from(&self, number: u32, settled: bool, first: Version<V>) -> Version<V>
        ensures { result ≡ fold (taken_in (seen self.now) settled number) first self.now.lines.now }
    {
        self.lines
            .iter()
            .fold(first, |best, l| self.take_in(number, settled, best, l))
    }

    // The better of the best version so far and a line, if that is a version.
    fn take_in(&self, number: u32, settled: bool, best: Version<V>, l: &Line<V>) -> Version<V>
        ensures { result ≡ taken_in (seen self.now) settled number best l.now }
    {
        if l.time <= best.time {
            return best;
        }
        if self.written(number, settled, l) {
            Version {
                time: l.time,
                value: l.value,
            }
        } else {
            best
        }
    }

    // Whether a line is a version of the card, and known as committed where only such count: `settled` says so, a flag
    // as in the definition.
    pub(crate) fn written(&self, number: u32, settled: bool, l: &Line<V>) -> bool
        ensures { result ≡ written (seen self.now) settled number l.now }
    {
        l.card == number
            && mode::does_write(l.mode)
            && l.present(&self.table)
            && self.stands(settled, l.time)
    }

    pub(crate) fn stands(&self, settled: bool, time: u32) -> bool
        ensures { result ≡ stands settled (known (seen self.now) time) }
    {
        match self.known(time) {
            Some(Outcome::Abort) => false,
            Some(Outcome::Commit) => true,
            None => !settled,
        }
    }
}
