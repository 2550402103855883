// Telling a verdict to the sites that were sent a line.
ghost use Rattle.std.specs.Prelude.{◌≡◌};
ghost use Rattle.book.specs.Meaning.{modes_in};
ghost use Rattle.carrier.specs.Carrying.{PutOf};
ghost use Rattle.carrier.specs.Sending.{targets};
ghost use Rattle.knowledge.specs.Knowledge.{seen};
ghost use Rattle.settling.specs.Settling.{told_sites, verdict_messages};

use carrier::carrier::Carrier;
use carrier::fault::CarrierFault;
use carrier::sending::send_to;
use knowledge::view::View;
use records::message::Message;
use site::lines::{Ruled, sent_mask};
use terms::kind::Kind;
use terms::outcome::Outcome;

// The sites to which a verdict of the transaction goes.
pub(crate) fn told_mask<V: Copy>(view: &View<'_, V>, x: &Ruled<V>) -> u32
    ensures { targets result ≡ told_sites (seen view.now) (modes_in x.now.modes) x.now.transaction }
{
    sent_mask(&view.table, x.origin(), x.lines())
}

// Puts the verdict once for each site that was sent a line, by site number, if there are places for all; else none.
pub fn tell<V: Copy, C: Carrier<V>>(
    carrier: &mut C,
    view: &View<'_, V>,
    x: &Ruled<V>,
    outcome: Outcome,
) -> Result<(), CarrierFault>
    ensures { PutOf (C.Carrier.queue carrier.old) (verdict_messages (seen view.now) (modes_in x.now.modes) x.now.transaction outcome) result (C.Carrier.queue carrier.new) }
{
    let Some(line) = x.lines().get(0) else {
        return Ok(());
    };
    let verdict = Message {
        kind: Kind::from(outcome).into(),
        from: x.origin(),
        to: x.origin(),
        line,
    };
    send_to(carrier, verdict, told_mask(view, x))
}
