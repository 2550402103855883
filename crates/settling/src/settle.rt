// Settling one of the site's own transactions. What the site knows and the transaction stay two parameters: the one is
// asked about the other.
ghost use Rattle.std.specs.Prelude.{◌≡◌, length, is_some};
ghost use Rattle.book.specs.Meaning.{modes_in};
ghost use Rattle.knowledge.specs.Knowledge.{seen, known};
ghost use Rattle.settling.specs.Settling.{doubted, due, told_sites, settlement};

use crate::doubt::{Doubt, any_mark, any_writer};
use crate::tell::told_mask;
use carrier::sending::target_count;
use knowledge::view::View;
use site::fault::SiteFault;
use site::lines::Ruled;
use terms::outcome::Outcome;

// Whether a record is free for a verdict, and how many places the carrier has.
#[derive(Clone, Copy, Debug, PartialEq, Eq)]
pub struct Room {
    pub verdict: bool,
    pub places: usize,
}

fn doubted<V: Copy>(view: &View<'_, V>, doubt: Doubt, x: &Ruled<V>) -> bool
    ensures { result ≡ doubted (seen view.now) doubt (modes_in x.now.modes) x.now.transaction }
{
    any_mark(doubt, x.transaction.entries) || any_writer(view, doubt, x)
}

// The outcome that is due at the origin, if one is.
fn outcome_due<V: Copy>(view: &View<'_, V>, x: &Ruled<V>) -> Option<Outcome>
    ensures { result ≡ due (seen view.now) (modes_in x.now.modes) x.now.transaction }
{
    if doubted(view, Doubt::Refuted, x) {
        Some(Outcome::Abort)
    } else if !doubted(view, Doubt::Unproved, x) {
        Some(Outcome::Commit)
    } else {
        None
    }
}

// How many messages a verdict of the transaction takes.
fn told_count<V: Copy>(view: &View<'_, V>, x: &Ruled<V>) -> usize
    ensures { result ≡ length (told_sites (seen view.now) (modes_in x.now.modes) x.now.transaction) }
{
    target_count(told_mask(view, x))
}

// Whether a verdict of the transaction is known.
fn is_settled<V: Copy>(view: &View<'_, V>, x: &Ruled<V>) -> bool
    ensures { result ≡ is_some (known (seen view.now) x.now.transaction.time) }
{
    view.known(x.transaction.time).is_some()
}

// The outcome to which a transaction of this site is settled, or why it cannot be.
pub fn settle<V: Copy>(view: &View<'_, V>, room: Room, x: &Ruled<V>) -> Result<Outcome, SiteFault>
    ensures { result ≡ settlement (seen view.now) room.verdict room.places (modes_in x.now.modes) x.now.transaction }
{
    if is_settled(view, x) {
        return Err(SiteFault::NotOpen);
    }
    let outcome = outcome_due(view, x).ok_or(SiteFault::Unsettled)?;
    if !room.verdict {
        return Err(SiteFault::Unsettled);
    }
    if room.places < told_count(view, x) {
        return Err(SiteFault::NoPlaces);
    }
    Ok(outcome)
}
