// What a delivery does.
ghost use Rattle.std.specs.Prelude.{◌≡◌};
ghost use Rattle.delivering.specs.Arriving.{answered_by};
ghost use Rattle.delivering.specs.Effects.{fits, replies};
ghost use Rattle.records.specs.declared.message.Message.{Message};

use records::transaction::Transaction;
use terms::kind::Kind;
use terms::outcome::Outcome;

// Whether a record is free for a line, and for a verdict.
#[derive(Clone, Copy, Debug, PartialEq, Eq)]
pub struct Room {
    pub line: bool,
    pub verdict: bool,
}

#[derive(Clone, Copy, Debug, PartialEq, Eq)]
pub enum Effect<V> {
    // a line known as aborted is dropped, a verdict known before is not recorded again
    Nothing,
    // the line lands and is not answered
    Lands,
    // the line lands, and a CONFIRM answers it
    Confirms,
    // the line does not land, and a DENY answers it
    Denies,
    // the receiver's transaction becomes this
    Marks(Transaction<V>),
    // the verdict is recorded
    Records(Outcome),
}

impl<V: Copy> Effect<V> {
    // Whether the records that the effect needs are free.
    pub fn fits(&self, room: Room) -> bool
        ensures { result ≡ fits room self.now }
    {
        match self {
            Effect::Nothing | Effect::Denies | Effect::Marks(_) => true,
            Effect::Lands | Effect::Confirms => room.line,
            Effect::Records(_) => room.verdict,
        }
    }

    // The kind of the reply, if the effect has one.
    pub fn reply_kind(&self) -> Option<Kind>
        ensures { (m : Message V) → replies self.now m ≡ answered_by result m }
    {
        match self {
            Effect::Confirms => Some(Kind::Confirm),
            Effect::Denies => Some(Kind::Deny),
            Effect::Nothing | Effect::Lands | Effect::Marks(_) | Effect::Records(_) => None,
        }
    }
}
