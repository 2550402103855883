// The word that a line of the arrivals script begins with: one match, which says all words.
ghost use Rattle.script.specs.Words.{word_of};

use crate::field::Field;

#[derive(Clone, Copy, Debug, PartialEq, Eq)]
pub enum Word {
    Opening,
    Line,
    Verdict,
    Value,
}

impl Field for Word {
    ghost told = { word_of };

    fn of_text(text: &[u8]) -> Option<Word> {
        match text {
            b"opening" => Some(Word::Opening),
            b"line" => Some(Word::Line),
            b"verdict" => Some(Word::Verdict),
            b"value" => Some(Word::Value),
            _ => None,
        }
    }
}
