// The word that a line of a sitting's script begins with: one match, which says all words.
ghost use Rattle.commands.specs.Words.{word_of};

use script::field::Field;

#[derive(Clone, Copy, Debug, PartialEq, Eq)]
pub enum Word {
    Sites,
    Card,
    Open,
    Start,
    Deliver,
    Settle,
    Value,
    Close,
}

impl Field for Word {
    ghost told = { word_of };

    fn of_text(text: &[u8]) -> Option<Word> {
        match text {
            b"sites" => Some(Word::Sites),
            b"card" => Some(Word::Card),
            b"open" => Some(Word::Open),
            b"start" => Some(Word::Start),
            b"deliver" => Some(Word::Deliver),
            b"settle" => Some(Word::Settle),
            b"value" => Some(Word::Value),
            b"close" => Some(Word::Close),
            _ => None,
        }
    }
}
