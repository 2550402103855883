// What a primary does with a line that arrives.
ghost use Rattle.std.specs.Prelude.{◌≡◌};
ghost use Rattle.knowledge.specs.Arrivals.{judged, Guards};
ghost use Rattle.knowledge.specs.Knowledge.{seen};

use crate::view::View;
use records::line::Line;
use std::fmt;

#[derive(Clone, Copy, Debug, PartialEq, Eq)]
pub enum Judgement {
    // its transaction is known as aborted: it does not land and is not answered
    Dropped,
    // it lands, and a CONFIRM answers it
    Confirmed,
    // it does not land, and a DENY answers it
    Denied,
}

impl fmt::Display for Judgement {
    fn fmt<W: fmt::Write>(&self, f: &mut fmt::Formatter<W>) -> fmt::Result {
        f.write_str(match self {
            Judgement::Dropped => "dropped",
            Judgement::Confirmed => "confirm",
            Judgement::Denied => "deny",
        })
    }
}

impl<'a, V: Copy> View<'a, V> {
    // The primary's judgement of a line. A line that it confirms guards its interval from then on.
    pub fn judge(&self, line: &Line<V>) -> Judgement
        ensures value { result ≡ judged (seen self.now) line.now }
        ensures guards { Guards (seen self.now) line.now }
    {
        if self.aborted(line.time) {
            Judgement::Dropped
        } else if self.denies(line) {
            Judgement::Denied
        } else {
            Judgement::Confirmed
        }
    }
}
