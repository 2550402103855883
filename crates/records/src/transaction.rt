// A transaction as its origin keeps it.
ghost use Rattle.std.specs.Prelude.{◌≡◌};
ghost use Rattle.records.specs.Present.{entry_present, transaction_present};

use crate::card::CardTable;
use terms::few::Few;
use terms::mark::Mark;

// What the origin keeps of one of the transaction's lines; its mode is its rule's.
#[derive(Clone, Copy, Debug, PartialEq, Eq)]
pub struct Entry<V> {
    pub card: u32,
    pub read: u32,
    pub value: V,
    pub mark: Mark,
}

impl<V: Copy> Entry<V> {
    // Whether the entry is in range in a transaction with this time.
    fn present(&self, table: &CardTable<'_, V>, time: u32) -> bool
        ensures { result ≡ entry_present table.now.size table.now.cards.now time self.now }
    {
        table.find(self.card).is_some() && self.read <= time
    }
}

#[derive(Clone, Copy, Debug, PartialEq, Eq)]
pub struct Transaction<V> {
    pub time: u32,
    // any number, since a damaged record may have any
    pub rule: u32,
    pub argument: V,
    pub entries: Few<Entry<V>>,
}

impl<V: Copy> Transaction<V> {
    // Whether the record is in range, for the number of lines that its rule has in the book (0: the book lacks it);
    // otherwise it counts as absent.
    pub fn present(&self, table: &CardTable<'_, V>, lines: usize) -> bool
        ensures { result ≡ transaction_present table.now.size table.now.cards.now lines self.now }
    {
        table.size.has_time(self.time)
            && 0 < lines
            && self.entries.len() == lines
            && self.entries.all(|entry| entry.present(table, self.time))
    }
}
