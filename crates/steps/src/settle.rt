// A whole settlement at a transaction's origin.
ghost use Rattle.carrier.specs.Carrying.{places_left};
ghost use Rattle.steps.specs.Handed.{handed};
ghost use Rattle.steps.specs.Settle.{Settles};

use crate::numbers::{Counts, Numbers, Used, put_since};
use crate::view::view_of;
use book::rules::RuleBook;
use carrier::carrier::Carrier;
use carrier::sending::free_places;
use records::card::CardTable;
use records::line::Line;
use records::transaction::Transaction;
use records::verdict::Verdict;
use settling::settle;
use settling::settle::Room;
use settling::tell::tell;
use site::fault::SiteFault;
use site::lines::Ruled;
use site::table::append;
use terms::few::Few;
use terms::outcome::Outcome;

// An accepted settlement: the outcome, and the numbers afterwards.
#[derive(Clone, Copy, Debug, PartialEq, Eq)]
pub struct Settled {
    pub outcome: Outcome,
    pub numbers: Numbers,
}

// Settles a transaction of this site: its verdict is told to each site that was sent a line, and recorded. The tables
// stay slices apart: so the type says which of them may change.
pub fn settle<B: RuleBook, C: Carrier<B::Value>>(
    book: &B,
    carrier: &mut C,
    table: &CardTable<'_, B::Value>,
    lines: &[Line<B::Value>],
    verdicts: &mut [Verdict],
    numbers: Numbers,
    x: Transaction<B::Value>,
) -> Result<Settled, SiteFault>
    ensures { Settles (B.RuleBook.modes book.now) x (handed table.now.size table.now.cards.now lines.now verdicts.old numbers.used numbers.counts (places_left (C.Carrier.queue carrier.old))) (C.Carrier.queue carrier.old) result verdicts.new (C.Carrier.queue carrier.new) }
{
    let Numbers { used, counts } = numbers;
    let ruled = Ruled {
        transaction: x,
        modes: book.modes_of(x.rule),
    };
    let room = Room {
        verdict: used.verdicts < verdicts.len(),
        places: free_places(carrier),
    };
    let view = view_of(*table, lines, verdicts, used);
    let outcome = settle::settle(&view, room, &ruled)?;
    let verdict = Verdict {
        time: x.time,
        outcome,
    };
    let recorded = append(verdicts, used.verdicts, Few::One(verdict));
    let waited = carrier.count();
    let view = view_of(*table, lines, verdicts, used);
    tell(carrier, &view, &ruled, outcome)?;
    Ok(Settled {
        outcome,
        numbers: Numbers {
            used: Used {
                verdicts: recorded,
                ..used
            },
            counts: Counts {
                put: put_since(carrier, waited, counts.put),
                ..counts
            },
        },
    })
}
