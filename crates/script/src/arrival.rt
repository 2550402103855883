// One line of the arrivals script.
ghost use Rattle.std.specs.Prelude.{◌≡◌, ℕ, List};
ghost use Rattle.script.specs.Arrivals.{arrival_form, fields_after, line_form};
ghost use Rattle.script.specs.Forms.{parsed};
ghost use Rattle.script.specs.Gathering.{gathered, kept};
ghost use Rattle.script.specs.Readers.{left};

use crate::gather::Gather;
use crate::line::{ScriptLine, alone, one_field, told_gathered, two_fields};
use crate::pieces::Pieces;
use crate::word::Word;
use books::date::Date;
use terms::outcome::Outcome;

// What a line tells. The mode is any number, since a line may tell one that no mode has, and `read` the time of the
// version that was read.
#[derive(Clone, Copy, Debug, PartialEq, Eq)]
pub enum Arrival {
    Opening(Date),
    Line {
        time: u32,
        mode: u32,
        read: u32,
        date: Date,
    },
    Verdict {
        time: u32,
        outcome: Outcome,
    },
    Value,
}

impl ScriptLine for Arrival {
    type Word = Word;

    ghost fields_after = { fields_after };

    fn after(word: Word, fields: Pieces) -> Result<Arrival, u32> {
        match word {
            Word::Opening => one_field(fields).map(Arrival::Opening),
            Word::Line => line(fields),
            Word::Verdict => two_fields(fields).map(|(time, outcome)| Arrival::Verdict {
                time,
                outcome,
            }),
            Word::Value => alone(Arrival::Value, fields),
        }
    }
}

impl Arrival {
    // The arrival that a gathered line tells: that of the whole line, however long it is.
    pub fn of_gathered(line: &Gather) -> Result<Arrival, u32>
        ensures form { result ≡ arrival_form (gathered line.now) }
        ensures whole { (whole : List ℕ) → gathered line.now ≡ kept whole → result ≡ arrival_form whole }
    {
        told_gathered(line)
    }
}

// Each field is left with its own number, which is what a program prints.
fn line(mut fields: Pieces) -> Result<Arrival, u32>
    ensures { result ≡ parsed line_form 2 (left fields.entry) }
{
    let Some(time) = fields.read() else {
        return Err(2);
    };
    let Some(mode) = fields.read() else {
        return Err(3);
    };
    let Some(read) = fields.read() else {
        return Err(4);
    };
    let Some(date) = fields.read() else {
        return Err(5);
    };
    if !fields.ended() {
        return Err(6);
    }
    Ok(Arrival::Line {
        time,
        mode,
        read,
        date,
    })
}
