// What follows the words card and start of a sitting's script. A field that is missing, extra or unreadable is left
// with its number.
ghost use Rattle.std.specs.Prelude.{◌≡◌};
ghost use Rattle.script.specs.Forms.{parsed};
ghost use Rattle.script.specs.Readers.{left};
ghost use Rattle.commands.specs.Commands.{card_form, cards_form, start_form};

use crate::command::Command;
use crate::value::FieldValue;
use script::pieces::Pieces;
use terms::few::Few;

pub fn card<V: FieldValue>(mut fields: Pieces) -> Result<Command<V>, u32>
    ensures { result ≡ parsed (card_form V.told) 2 (left fields.entry) }
{
    let Some(holders) = fields.read() else {
        return Err(2);
    };
    let Some(primary) = fields.read() else {
        return Err(3);
    };
    let Some(opening) = V::next_in(&mut fields) else {
        return Err(4);
    };
    if !fields.ended() {
        return Err(5);
    }
    Ok(Command::Card {
        holders,
        primary,
        opening,
    })
}

pub fn start<V: FieldValue>(mut fields: Pieces) -> Result<Command<V>, u32>
    ensures { result ≡ parsed (start_form V.told) 2 (left fields.entry) }
{
    let Some(site) = fields.read() else {
        return Err(2);
    };
    let Some(rule) = fields.read() else {
        return Err(3);
    };
    let Some(argument) = V::next_in(&mut fields) else {
        return Err(4);
    };
    let cards = cards(fields)?;
    Ok(Command::Start {
        site,
        rule,
        argument,
        cards,
    })
}

// One card to four.
fn cards(mut fields: Pieces) -> Result<Few<u32>, u32>
    ensures { result ≡ parsed cards_form 5 (left fields.entry) }
{
    let Some(a) = fields.read() else {
        return Err(5);
    };
    if fields.ended() {
        return Ok(Few::One(a));
    }
    let Some(b) = fields.read() else {
        return Err(6);
    };
    if fields.ended() {
        return Ok(Few::Two(a, b));
    }
    let Some(c) = fields.read() else {
        return Err(7);
    };
    if fields.ended() {
        return Ok(Few::Three(a, b, c));
    }
    let Some(d) = fields.read() else {
        return Err(8);
    };
    if !fields.ended() {
        return Err(9);
    }
    Ok(Few::Four(a, b, c, d))
}
