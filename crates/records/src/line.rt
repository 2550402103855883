// A line: what one transaction does with one card. Plain numbers, since a stray one may have any.
ghost use Rattle.std.specs.Prelude.{◌≡◌};
ghost use Rattle.records.specs.Present.{line_present};

use crate::card::CardTable;
use terms::mode::Mode;

#[derive(Clone, Copy, Debug, PartialEq, Eq)]
pub struct Line<V> {
    pub time: u32,
    // from 1 to 4 in its transaction
    pub number: u32,
    pub card: u32,
    pub mode: u32,
    // the time of the version read; in mode 2 the line's own time
    pub read: u32,
    // the value written; in mode 1 the value read
    pub value: V,
}

impl<V: Copy> Line<V> {
    // Whether the record is in range; otherwise it counts as absent.
    pub fn present(&self, table: &CardTable<'_, V>) -> bool
        ensures { result ≡ line_present table.now.size table.now.cards.now self.now }
    {
        table.size.has_time(self.time)
            && (1..=4).contains(&self.number)
            && table.find(self.card).is_some()
            && Mode::try_from(self.mode).is_ok()
            && self.read <= self.time
    }
}
