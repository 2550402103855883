// The reply to a message.
ghost use Rattle.std.specs.Prelude.{◌≡◌};
ghost use Rattle.carrier.specs.Carrying.{PutOf};
ghost use Rattle.delivering.specs.Effects.{reply_of, replies};

use crate::effect::Effect;
use carrier::carrier::Carrier;
use carrier::fault::CarrierFault;
use records::message::Message;
use terms::kind::Kind;

// The reply of this kind to a message: it repeats the whole line, from the receiver to the sender.
pub fn reply_to<V: Copy>(message: Message<V>, kind: Kind) -> Message<V>
    ensures { result ≡ reply_of kind message }
{
    Message {
        kind: kind.into(),
        from: message.to,
        to: message.from,
        line: message.line,
    }
}

// Puts the reply to a message with this effect, if there is one and a place is free for it.
pub fn reply<V: Copy, C: Carrier<V>>(
    carrier: &mut C,
    message: Message<V>,
    effect: &Effect<V>,
) -> Result<(), CarrierFault>
    ensures { PutOf (C.Carrier.queue carrier.old) (replies effect.now message) result (C.Carrier.queue carrier.new) }
{
    match effect.reply_kind() {
        Some(kind) => carrier.put(reply_to(message, kind)),
        None => Ok(()),
    }
}
