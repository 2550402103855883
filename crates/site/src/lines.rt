// A transaction's lines, and the sites that were sent one.
ghost use Rattle.std.specs.Prelude.{◌≡◌, ℕ, ◌<◌};
ghost use Rattle.terms.specs.Few.{few_list};
ghost use Rattle.terms.specs.Modes.{mode_number};
ghost use Rattle.terms.specs.Times.{site_of};
ghost use Rattle.book.specs.Meaning.{modes_in};
ghost use Rattle.records.specs.Present.{holds, card_at};
ghost use Rattle.site.specs.Lines.{line_of, lines_of, is_sent, goes_to};

use crate::masks::line_mask;
use records::card::CardTable;
use records::line::Line;
use records::transaction::{Entry, Transaction};
use terms::few::Few;
use terms::mode::Mode;
use terms::time::VirtualTime;

// A transaction, with the modes of its rule's lines.
#[derive(Clone, Copy, Debug, PartialEq, Eq)]
pub struct Ruled<V> {
    pub transaction: Transaction<V>,
    pub modes: Few<Mode>,
}

// An entry as the line that it is, with its number and its mode.
fn line_of<V: Copy>(time: u32, number: u32, mode: Mode, entry: Entry<V>) -> Line<V>
    ensures { result ≡ line_of time number (mode_number mode) entry }
{
    Line {
        time,
        number,
        card: entry.card,
        mode: mode.into(),
        read: entry.read,
        value: entry.value,
    }
}

impl<V: Copy> Ruled<V> {
    // The transaction's lines, numbered from 1.
    pub fn lines(&self) -> Few<Line<V>>
        ensures { few_list result ≡ lines_of (modes_in self.now.modes) self.now.transaction }
    {
        let Transaction { time, entries, .. } = self.transaction;
        let parts = self.modes.zip(entries).zip(Few::Four(1, 2, 3, 4));
        parts.map(|((mode, entry), number)| line_of(time, number, mode, entry))
    }

    // The site at which the transaction was started.
    pub fn origin(&self) -> u32
        ensures { result ≡ site_of self.now.transaction.time }
    {
        VirtualTime::from(self.transaction.time).site
    }
}

// The sites below 8 to which a line goes from its origin; none if its card is absent.
pub fn target_mask<V: Copy>(table: &CardTable<'_, V>, origin: u32, line: &Line<V>) -> u32
    ensures { (s : ℕ) → s < 8 → holds result s ≡ goes_to origin line.now.mode (card_at table.now.size table.now.cards.now line.now.card) s }
{
    match table.find(line.card) {
        Some(card) => line_mask(origin, line.mode, &card),
        None => 0,
    }
}

// The sites below 8 that were sent one of some lines from their origin.
pub fn sent_mask<V: Copy>(table: &CardTable<'_, V>, origin: u32, lines: Few<Line<V>>) -> u32
    ensures { (s : ℕ) → s < 8 → holds result s ≡ is_sent table.now.size table.now.cards.now origin (few_list lines) s }
{
    let mut mask = 0;
    for line in lines {
        mask |= target_mask(table, origin, &line);
    }
    mask
}
