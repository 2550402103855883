// What a delivery writes behind the used records of a table, a slice that is handed to each call.
ghost use Rattle.delivering.specs.Effects.{landing, recording};
ghost use Rattle.site.specs.Tables.{Extends};

use crate::effect::Effect;
use records::line::Line;
use records::message::Message;
use records::verdict::Verdict;
use site::table::append;
use terms::few::Few;

// Lands the message's line if the effect has it land, and answers how many lines are used afterwards.
pub fn land<V: Copy>(
    lines: &mut [Line<V>],
    used: usize,
    effect: &Effect<V>,
    message: &Message<V>,
) -> usize
    ensures { Extends lines.old used (landing effect.now message.now) result lines.new }
{
    if matches!(effect, Effect::Lands | Effect::Confirms) {
        append(lines, used, Few::One(message.line))
    } else {
        used
    }
}

// Records the message's verdict if the effect has it recorded, and answers how many verdicts are used afterwards.
pub fn record<V: Copy>(
    verdicts: &mut [Verdict],
    used: usize,
    effect: &Effect<V>,
    message: &Message<V>,
) -> usize
    ensures { Extends verdicts.old used (recording effect.now message.now) result verdicts.new }
{
    let Effect::Records(outcome) = *effect else {
        return used;
    };
    let told = Verdict {
        time: message.line.time,
        outcome,
    };
    append(verdicts, used, Few::One(told))
}
