// The primary of one card: its records, and what it does with what arrives.
ghost use Rattle.std.specs.Prelude.{◌≡◌, IfOk};
ghost use Rattle.desk.specs.Steps.{desk_size, unopened, is_open, open_answer, open_after, line_answer, line_after, verdict_answer, verdict_after};
ghost use Rattle.knowledge.specs.Knowledge.{Site, seen};
ghost use Rattle.knowledge.specs.Versions.{current, committed_value};

use crate::register::{Full, Register};
use knowledge::judge::Judgement;
use knowledge::versions::Version;
use knowledge::view::View;
use records::card::{Card, CardTable};
use records::line::Line;
use records::size::Size;
use records::verdict::Verdict;
use site::fault::SiteFault;
use std::alloc::{AllocError, Global};
use std::marker::Model;

const SIZE: Size = Size {
    sites: 8,
    transactions: 32,
};

// Four lines for each transaction.
const LINES: usize = 128;

const VERDICTS: usize = 32;

// The tables of one of eight sites in a sitting of at most 32 transactions.
#[derive(Drop)]
pub struct Primary<V: Copy> {
    // one card at most; an Option would lend it as a slice only if a card of any value were known to fit in memory
    cards: Register<Card<V>, 1>,
    lines: Register<Line<V>, LINES>,
    verdicts: Register<Verdict, VERDICTS>,
}

impl<V: Copy> Model for Primary<V> {
    ghost Value = { Site V };

    ghost view = { λ p. record { size = desk_size; cards = p.cards; lines = p.lines; verdicts = p.verdicts } };
}

impl<V: Copy> Primary<V> {
    // A primary with all its records free, whose card is not opened yet.
    pub fn new(heap: Global) -> Result<Primary<V>, AllocError>
        ensures { IfOk result (λ p. p ≡ unopened) }
    {
        Ok(Primary {
            cards: Register::new(heap)?,
            lines: Register::new(heap)?,
            verdicts: Register::new(heap)?,
        })
    }

    pub fn is_open(&self) -> bool
        ensures { result ≡ is_open self.now }
    {
        !self.cards.as_slice().is_empty()
    }

    // Opens the card with its opening value, once.
    pub fn open(&mut self, opening: V) -> Result<(), Full>
        ensures answer { result ≡ open_answer self.old }
        ensures after { self.new ≡ open_after self.old opening }
    {
        self.cards.push(Card {
            opening,
            holders: 1,
            primary: 0,
        })
    }

    fn view(&self) -> View<'_, V>
        ensures { seen result ≡ self.now }
    {
        View {
            table: CardTable {
                size: SIZE,
                cards: self.cards.as_slice(),
            },
            lines: self.lines.as_slice(),
            verdicts: self.verdicts.as_slice(),
        }
    }

    pub fn current(&self) -> Option<Version<V>>
        ensures { result ≡ current self.now 0 }
    {
        self.view().current(0)
    }

    pub fn committed_value(&self) -> Option<Version<V>>
        ensures { result ≡ committed_value self.now 0 }
    {
        self.view().committed_value(0)
    }

    // A line arrives: refused if it is out of range or would land with no record free, else judged.
    pub fn line(&mut self, line: Line<V>) -> Result<Judgement, SiteFault>
        ensures answer { result ≡ line_answer self.old line }
        ensures after { self.new ≡ line_after self.old line }
    {
        let view = self.view();
        if !line.present(&view.table) {
            return Err(SiteFault::Foreign);
        }
        let judgement = view.judge(&line);
        if judgement == Judgement::Confirmed {
            self.lines.push(line)?;
        }
        Ok(judgement)
    }

    // A verdict arrives: refused if it is out of range or wants a record and none is free; the first one stands.
    pub fn verdict(&mut self, verdict: Verdict) -> Result<(), SiteFault>
        ensures answer { result ≡ verdict_answer self.old verdict }
        ensures after { self.new ≡ verdict_after self.old verdict }
    {
        let view = self.view();
        if !verdict.present(view.table.size) {
            return Err(SiteFault::Foreign);
        }
        if view.known(verdict.time).is_none() {
            self.verdicts.push(verdict)?;
        }
        Ok(())
    }
}
