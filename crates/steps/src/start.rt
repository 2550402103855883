// A whole start at its origin.
ghost use Rattle.std.specs.Prelude.{◌≡◌};
ghost use Rattle.carrier.specs.Carrying.{places_left};
ghost use Rattle.steps.specs.Handed.{handed};
ghost use Rattle.steps.specs.Start.{start_decided, Starts};

use crate::landing::land;
use crate::numbers::{Counts, Numbers, Used, put_since};
use crate::view::view_of;
use book::rules::RuleBook;
use carrier::carrier::Carrier;
use carrier::sending::free_places;
use records::card::CardTable;
use records::line::Line;
use records::transaction::Transaction;
use records::verdict::Verdict;
use site::fault::SiteFault;
use site::lines::Ruled;
use site::table::append;
use starting::answer;
use starting::sending::send_lines;
use starting::start::{Order, Room};
use terms::few::Few;
use terms::time::VirtualTime;

// An accepted start: the transaction with its number, and the numbers afterwards.
#[derive(Clone, Copy, Debug, PartialEq, Eq)]
pub struct Started<V> {
    pub number: usize,
    pub transaction: Transaction<V>,
    pub numbers: Numbers,
}

// The transaction that is started, or why none is.
fn decide<'a, B: RuleBook>(
    book: &B,
    table: CardTable<'a, B::Value>,
    transactions: &[Transaction<B::Value>],
    lines: &'a [Line<B::Value>],
    verdicts: &'a [Verdict],
    numbers: Numbers,
    places: usize,
    order: &Order<B::Value>,
) -> Result<Transaction<B::Value>, SiteFault>
    ensures { result ≡ start_decided (B.RuleBook.modes book.now) (B.RuleBook.answer book.now) order.now (handed table.entry.size table.entry.cards.now lines.now verdicts.now numbers.used numbers.counts places) transactions.now }
{
    let Numbers { used, counts } = numbers;
    if transactions.len() <= counts.started {
        return Err(SiteFault::NoRecords);
    }
    let view = view_of(table, lines, verdicts, used);
    let room = Room {
        counter: used.counter,
        started: counts.started,
        lines: lines.len().saturating_sub(used.lines),
        places,
    };
    answer::start(book, &view, order, room)
}

// Starts a transaction at this site: its record is noted, its lines land and are sent. The tables stay
// slices apart: so the type says which of them may change.
pub fn start<B: RuleBook, C: Carrier<B::Value>>(
    book: &B,
    carrier: &mut C,
    table: &CardTable<'_, B::Value>,
    transactions: &mut [Transaction<B::Value>],
    lines: &mut [Line<B::Value>],
    verdicts: &[Verdict],
    numbers: Numbers,
    order: Order<B::Value>,
) -> Result<Started<B::Value>, SiteFault>
    ensures { Starts (B.RuleBook.modes book.now) (B.RuleBook.answer book.now) order (handed table.now.size table.now.cards.now lines.old verdicts.now numbers.used numbers.counts (places_left (C.Carrier.queue carrier.old))) transactions.old (C.Carrier.queue carrier.old) result transactions.new lines.new (C.Carrier.queue carrier.new) }
{
    let Numbers { used, counts } = numbers;
    let x = decide(
        book,
        *table,
        transactions,
        lines,
        verdicts,
        numbers,
        free_places(carrier),
        &order,
    )?;
    let ruled = Ruled {
        transaction: x,
        modes: book.modes_of(order.rule),
    };
    let landed = land(lines, used.lines, &ruled);
    let started = append(transactions, counts.started, Few::One(x));
    let waited = carrier.count();
    send_lines(carrier, table, order.origin, &ruled)?;
    Ok(Started {
        number: started,
        transaction: x,
        numbers: Numbers {
            used: Used {
                counter: VirtualTime::from(x.time).counter,
                lines: landed,
                ..used
            },
            counts: Counts {
                started,
                put: put_since(carrier, waited, counts.put),
                ..counts
            },
        },
    })
}
