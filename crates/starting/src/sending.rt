// Sending the lines of a start.
ghost use Rattle.std.specs.Prelude.{◌≡◌, ◌≤◌, length};
ghost use Rattle.std.specs.List.{flat_map};
ghost use Rattle.terms.specs.Few.{few_list};
ghost use Rattle.book.specs.Meaning.{modes_in};
ghost use Rattle.carrier.specs.Carrying.{PutOf, places_left};
ghost use Rattle.starting.specs.Starting.{line_messages, start_messages};

use crate::messages::message_count;
use carrier::carrier::Carrier;
use carrier::fault::CarrierFault;
use carrier::sending::{free_places, send_to};
use records::card::CardTable;
use records::line::Line;
use records::message::Message;
use site::lines::{Ruled, target_mask};
use terms::few::Few;
use terms::kind::Kind;

// Sends a line to each site that it has to go to; to none if there are too few places.
fn send_line<V: Copy, C: Carrier<V>>(
    carrier: &mut C,
    table: &CardTable<'_, V>,
    origin: u32,
    line: Line<V>,
) -> Result<(), CarrierFault>
    ensures { PutOf (C.Carrier.queue carrier.old) (line_messages table.now.size table.now.cards.now origin line) result (C.Carrier.queue carrier.new) }
{
    let message = Message {
        kind: Kind::Line.into(),
        from: origin,
        to: origin,
        line,
    };
    send_to(carrier, message, target_mask(table, origin, &line))
}

// Sends some lines one after the other, where there are places for all. Down the list as the messages' definition goes:
// a loop would want the definition again as its invariant.
fn send_each<V: Copy, C: Carrier<V>>(
    carrier: &mut C,
    table: &CardTable<'_, V>,
    origin: u32,
    lines: Few<Line<V>>,
) -> Result<(), CarrierFault>
    requires { length (flat_map (line_messages table.now.size table.now.cards.now origin) (few_list lines)) ≤ places_left (C.Carrier.queue carrier.old) }
    ensures { PutOf (C.Carrier.queue carrier.old) (flat_map (line_messages table.now.size table.now.cards.now origin) (few_list lines)) result (C.Carrier.queue carrier.new) }
{
    let Some((line, others)) = lines.split_first() else {
        return Ok(());
    };
    send_line(carrier, table, origin, line)?;
    send_each(carrier, table, origin, others)?;
    Ok(())
}

// Sends the lines of a transaction, by line and then by site number, if there are places for all; else none. The origin
// is the order's, as in the definition.
pub fn send_lines<V: Copy, C: Carrier<V>>(
    carrier: &mut C,
    table: &CardTable<'_, V>,
    origin: u32,
    x: &Ruled<V>,
) -> Result<(), CarrierFault>
    ensures { PutOf (C.Carrier.queue carrier.old) (start_messages table.now.size table.now.cards.now origin (modes_in x.now.modes) x.now.transaction) result (C.Carrier.queue carrier.new) }
{
    let lines = x.lines();
    if free_places(carrier) < message_count(table, origin, lines) {
        return Err(CarrierFault::Full);
    }
    send_each(carrier, table, origin, lines)
}
