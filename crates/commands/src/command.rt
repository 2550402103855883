// One line of a sitting's script.
ghost use Rattle.std.specs.Prelude.{◌≡◌, ℕ, List};
ghost use Rattle.script.specs.Gathering.{gathered, kept};
ghost use Rattle.commands.specs.Commands.{command_form, fields_after};
ghost use Rattle.commands.specs.Writing.{ReadsBack};

use crate::forms;
use crate::value::FieldValue;
use crate::word::Word;
use script::gather::Gather;
use script::line::{ScriptLine, alone, one_field, told, told_gathered, two_fields};
use script::pieces::Pieces;
use terms::few::Few;

// What a line asks for. The numbers are any that a field can tell; V is the book's value.
#[derive(Clone, Copy, Debug, PartialEq, Eq)]
pub enum Command<V> {
    Sites {
        count: u32,
        transactions: u32,
    },
    Card {
        holders: u32,
        primary: u32,
        opening: V,
    },
    Open,
    Start {
        site: u32,
        rule: u32,
        argument: V,
        cards: Few<u32>,
    },
    Deliver {
        hint: u32,
    },
    Settle {
        number: u32,
    },
    Value {
        site: u32,
        card: u32,
    },
    Close,
}

impl<V: FieldValue> ScriptLine for Command<V> {
    type Word = Word;

    ghost fields_after = { fields_after V.told };

    fn after(word: Word, fields: Pieces) -> Result<Command<V>, u32> {
        match word {
            Word::Sites => two_fields(fields).map(|(count, transactions)| Command::Sites {
                count,
                transactions,
            }),
            Word::Card => forms::card(fields),
            Word::Open => alone(Command::Open, fields),
            Word::Start => forms::start(fields),
            Word::Deliver => one_field(fields).map(|hint| Command::Deliver { hint }),
            Word::Settle => one_field(fields).map(|number| Command::Settle { number }),
            Word::Value => two_fields(fields).map(|(site, card)| Command::Value { site, card }),
            Word::Close => alone(Command::Close, fields),
        }
    }
}

impl<V: FieldValue> Command<V> {
    // The command that a line tells; if it has no such form, the number of its first bad field, from 1.
    pub fn of(line: &[u8]) -> Result<Command<V>, u32>
        ensures form { result ≡ command_form V.told line.now }
        ensures back { ReadsBack V.FieldValue.text V.FieldValue.fits line.now result }
    {
        told(line)
    }

    // The command that a gathered line tells: that of the whole line, however long it is.
    pub fn of_gathered(line: &Gather) -> Result<Command<V>, u32>
        ensures form { result ≡ command_form V.told (gathered line.now) }
        ensures whole { (whole : List ℕ) → gathered line.now ≡ kept whole → result ≡ command_form V.told whole }
    {
        told_gathered(line)
    }
}
