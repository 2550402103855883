// The plan of a delivery: what the receiver does with a message, without doing it.
ghost use Rattle.std.specs.Prelude.{◌≡◌};
ghost use Rattle.knowledge.specs.Knowledge.{seen};
ghost use Rattle.terms.specs.Kinds.{kind_of};
ghost use Rattle.delivering.specs.Arriving.{DeliversAs, AnswersAs};
ghost use Rattle.delivering.specs.Delivery.{raised, in_range, is_primary, card_of, line_here, expected, effect_of, delivery};

use crate::effect::{Effect, Room};
use crate::marks;
use knowledge::view::View;
use records::card;
use records::message::Message;
use records::size::Size;
use records::transaction::Transaction;
use site::fault::SiteFault;
use terms::kind::Kind;
use terms::outcome::Outcome;
use terms::time::VirtualTime;

// The receiver's counter after a message about this time.
pub fn raise(counter: u32, time: u32) -> u32
    ensures { result ≡ raised counter time }
{
    counter.max(VirtualTime::from(time).counter)
}

// Whether both ends of a message are sites of the sitting, and its time is one that a transaction may have.
fn in_range<V: Copy>(size: Size, message: &Message<V>) -> bool
    ensures { result ≡ in_range size message.now }
{
    message.from < size.sites && message.to < size.sites && size.has_time(message.line.time)
}

// Whether the message's line is in range, and the receiver holds its card.
fn line_here<V: Copy>(view: &View<'_, V>, message: &Message<V>) -> bool
    ensures { result ≡ line_here (seen view.now) message.now }
{
    let line = message.line;
    let card = view.table.find(line.card);
    line.present(&view.table) && card.is_some_and(|card| card::names(card.holders, message.to))
}

// Whether the receiver is the primary of the message's card.
fn is_primary<V: Copy>(view: &View<'_, V>, message: &Message<V>) -> bool
    ensures { result ≡ is_primary (card_of (seen view.now) message.now) message.now.to }
{
    view.table
        .find(message.line.card)
        .is_some_and(|card| card.primary == message.to)
}

// Whether the message tells what one of its kind can tell this receiver.
fn is_expected<V: Copy>(
    view: &View<'_, V>,
    own: Option<Transaction<V>>,
    kind: Kind,
    message: &Message<V>,
) -> bool
    ensures { result ≡ expected (seen view.now) own kind message.now }
{
    match kind {
        Kind::Line => line_here(view, message),
        Kind::Confirm | Kind::Deny => {
            line_here(view, message) && marks::asks(own, message.line.number)
        }
        Kind::Commit | Kind::Abort => true,
    }
}

// What the receiver does with a message that is not foreign: by its kind, with guards on what is known, as the rules
// have it.
fn effect_of<V: Copy>(
    view: &View<'_, V>,
    own: Option<Transaction<V>>,
    kind: Kind,
    message: &Message<V>,
) -> Effect<V>
    ensures { result ≡ effect_of (seen view.now) own kind message.now }
{
    let line = message.line;
    match kind {
        Kind::Line if view.aborted(line.time) => Effect::Nothing,
        Kind::Line if !is_primary(view, message) => Effect::Lands,
        Kind::Line if view.denies(&line) => Effect::Denies,
        Kind::Line => Effect::Confirms,
        Kind::Confirm | Kind::Deny => match own {
            Some(x) => Effect::Marks(marks::mark_line(x, line.number, kind)),
            None => Effect::Nothing,
        },
        Kind::Commit | Kind::Abort if view.known(line.time).is_some() => Effect::Nothing,
        Kind::Commit => Effect::Records(Outcome::Commit),
        Kind::Abort => Effect::Records(Outcome::Abort),
    }
}

// What a delivery to the site of this view does, beside the receiver's own transaction with the message's time, if
// there is one.
#[tactic(auto, using(crate::proofs::Arriving::delivers_as))]
pub fn deliver<V: Copy>(
    view: &View<'_, V>,
    room: Room,
    own: Option<Transaction<V>>,
    message: &Message<V>,
) -> Result<Effect<V>, SiteFault>
    ensures value { result ≡ delivery (seen view.now) room own message.now }
    ensures arrives { DeliversAs (seen view.now) (kind_of message.now.kind) message.now result }
    ensures answers { AnswersAs (seen view.now) (kind_of message.now.kind) message.now result }
{
    let Ok(kind) = Kind::try_from(message.kind) else {
        return Err(SiteFault::Foreign);
    };
    if !in_range(view.table.size, message) || !is_expected(view, own, kind, message) {
        return Err(SiteFault::Foreign);
    }
    let effect = effect_of(view, own, kind, message);
    if effect.fits(room) {
        Ok(effect)
    } else {
        Err(SiteFault::Foreign)
    }
}
