// A line of a script: a word and the fields that follow it, parted by tabs. Each field is left with its own number,
// which is what a program prints, and so the error is that number.
ghost use Rattle.std.specs.Prelude.{◌≡◌, ℕ, List};
ghost use Rattle.script.specs.Forms.{Form, ends, wants, parsed, line_parsed};
ghost use Rattle.script.specs.Gathering.{gathered, kept};
ghost use Rattle.script.specs.Readers.{left};

use crate::field::Field;
use crate::gather::Gather;
use crate::pieces::Pieces;

// What a line of a script tells.
pub trait ScriptLine: Copy {
    // The words that a line may begin with.
    type Word: Field;

    // The form of what follows each word.
    ghost fields_after: { Self.Word → Form Self };

    // What the fields after a word tell, or the number of the first bad one.
    fn after(word: Self::Word, fields: Pieces) -> Result<Self, u32>
        ensures { result ≡ parsed (fields_after word) 2 (left fields.entry) };
}

// What a line tells; if it has no such form, the number of its first bad field, from 1.
pub fn told<T: ScriptLine>(line: &[u8]) -> Result<T, u32>
    ensures { result ≡ line_parsed (wants T.Word.told T.fields_after) line.now }
{
    if line.len() > 80 {
        return Err(1);
    }
    let mut fields = Pieces::new(line, b'\t');
    let Some(field) = fields.next() else {
        return Err(1);
    };
    let Some(word) = T::Word::of_text(field.text) else {
        return Err(field.place);
    };
    T::after(word, fields)
}

// What a gathered line tells: that of the whole line, however long it is.
pub fn told_gathered<T: ScriptLine>(line: &Gather) -> Result<T, u32>
    ensures form { result ≡ line_parsed (wants T.Word.told T.fields_after) (gathered line.now) }
    ensures whole { (whole : List ℕ) → gathered line.now ≡ kept whole → result ≡ line_parsed (wants T.Word.told T.fields_after) whole }
{
    told(line.line())
}

// What a word that nothing follows tells.
pub fn alone<T: Copy>(told: T, fields: Pieces) -> Result<T, u32>
    ensures { result ≡ parsed (ends told) 2 (left fields.entry) }
{
    if fields.ended() { Ok(told) } else { Err(2) }
}

// The one field after a word.
pub fn one_field<A: Field>(mut fields: Pieces) -> Result<A, u32>
    ensures { result ≡ parsed (wants A.told ends) 2 (left fields.entry) }
{
    let Some(only) = fields.read() else {
        return Err(2);
    };
    if !fields.ended() {
        return Err(3);
    }
    Ok(only)
}

// The two fields after a word.
pub fn two_fields<A: Field, B: Field>(mut fields: Pieces) -> Result<(A, B), u32>
    ensures { result ≡ parsed (wants A.told (λ a. wants B.told (λ b. ends (a, b)))) 2 (left fields.entry) }
{
    let Some(first) = fields.read() else {
        return Err(2);
    };
    let Some(second) = fields.read() else {
        return Err(3);
    };
    if !fields.ended() {
        return Err(4);
    }
    Ok((first, second))
}
