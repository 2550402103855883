// A whole delivery at its receiver.
ghost use Rattle.std.specs.Prelude.{◌≡◌};
ghost use Rattle.carrier.specs.Carrying.{places_left};
ghost use Rattle.steps.specs.Deliver.{if_answerable, Delivers};
ghost use Rattle.steps.specs.Handed.{handed};

use crate::numbers::{Counts, Numbers, Used, add, put_since};
use crate::view::view_of;
use book::rules::RuleBook;
use carrier::carrier::Carrier;
use carrier::sending::free_places;
use delivering::effect::{Effect, Room};
use delivering::table::{land, record};
use delivering::{deliver, owns, reply};
use records::card::CardTable;
use records::line::Line;
use records::message::Message;
use records::transaction::Transaction;
use records::verdict::Verdict;
use site::fault::SiteFault;
use site::table;
use site::table::front;

// An accepted delivery: its effect, and the numbers afterwards.
#[derive(Clone, Copy, Debug, PartialEq, Eq)]
pub struct Delivered<V> {
    pub effect: Effect<V>,
    pub numbers: Numbers,
}

// Whether the reply to the message, if the effect has one, finds a place.
fn answerable<V: Copy>(
    places: usize,
    message: &Message<V>,
    decided: Result<Effect<V>, SiteFault>,
) -> Result<Effect<V>, SiteFault>
    ensures { result ≡ if_answerable places message.now decided }
{
    match decided {
        Ok(Effect::Confirms | Effect::Denies) if places == 0 => Err(SiteFault::NoPlaces),
        decided => decided,
    }
}

// Delivers a message to this site: its line lands, its answer marks a line of the site's own transaction, or its
// verdict is recorded, and a line at its primary is answered.
pub fn deliver<B: RuleBook, C: Carrier<B::Value>>(
    book: &B,
    carrier: &mut C,
    table: &CardTable<'_, B::Value>,
    transactions: &mut [Transaction<B::Value>],
    lines: &mut [Line<B::Value>],
    verdicts: &mut [Verdict],
    numbers: Numbers,
    message: Message<B::Value>,
) -> Result<Delivered<B::Value>, SiteFault>
    ensures { Delivers (B.RuleBook.modes book.now) message (handed table.now.size table.now.cards.now lines.old verdicts.old numbers.used numbers.counts (places_left (C.Carrier.queue carrier.old))) transactions.old (C.Carrier.queue carrier.old) result transactions.new lines.new verdicts.new (C.Carrier.queue carrier.new) }
{
    let Numbers { used, counts } = numbers;
    let started = front(transactions, counts.started);
    let place = owns::find_own(book, table, started, message.to, message.line.time);
    let own = table::get(started, place);
    let room = Room {
        line: used.lines < lines.len(),
        verdict: used.verdicts < verdicts.len(),
    };
    let view = view_of(*table, lines, verdicts, used);
    let decided = deliver::deliver(&view, room, own, &message);
    let effect = answerable(free_places(carrier), &message, decided)?;
    owns::remark(transactions, place, &effect);
    let landed = land(lines, used.lines, &effect, &message);
    let recorded = record(verdicts, used.verdicts, &effect, &message);
    let waited = carrier.count();
    reply::reply(carrier, message, &effect)?;
    Ok(Delivered {
        effect,
        numbers: Numbers {
            used: Used {
                counter: deliver::raise(used.counter, message.line.time),
                lines: landed,
                verdicts: recorded,
            },
            counts: Counts {
                put: put_since(carrier, waited, counts.put),
                delivered: add(counts.delivered, 1),
                ..counts
            },
        },
    })
}
