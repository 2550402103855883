// A reader that cuts bytes at a separator and hands out the pieces in order, each with its place.
ghost use Rattle.std.specs.Prelude.{◌≡◌, ◌≤◌, ◌∷◌, length, take, drop, ◌==◌, position, ◌<◌, IfSome};
ghost use Rattle.std.specs.Iterator.{at_most};
ghost use Rattle.script.specs.Forms.{read};
ghost use Rattle.script.specs.Pieces.{Cut, pieces, pieces_past, head, others, empty};
ghost use Rattle.script.specs.Readers.{left, handed, Reads, Hands};

use crate::field::Field;

// A piece as a part of the bytes that were cut, with its place, from 1.
#[derive(Clone, Copy, Debug, PartialEq, Eq)]
pub struct Piece<'a> {
    pub text: &'a [u8],
    pub place: u32,
}

// The library splits a slice too, but does not say that what it hands out are these pieces, each with its place.
#[derive(Drop)]
pub struct Pieces<'a> {
    separator: u8,
    rest: Option<&'a [u8]>,
    place: u32,
}

// Where the first separator stands.
fn first(bytes: &[u8], separator: u8) -> Option<usize>
    ensures at { result ≡ position (λ b. b == separator) bytes.now }
    ensures within { IfSome result (λ i. i < length bytes.now) }
{
    bytes.iter().position(|byte| *byte == separator)
}

// How many bytes stand before the first separator.
#[tactic(auto, using(crate::proofs::Joining::cut_first))]
fn end(bytes: &[u8], separator: u8) -> usize
    ensures within { result ≤ length bytes.now }
    ensures cut { pieces separator bytes.now ≡ take result bytes.now ∷ pieces_past separator (drop result bytes.now) }
{
    first(bytes, separator).unwrap_or(bytes.len())
}

impl<'a> Pieces<'a> {
    pub fn new(bytes: &'a [u8], separator: u8) -> Pieces<'a>
        ensures cut { left result ≡ pieces separator bytes.now }
        ensures start { handed result ≡ 0 }
        ensures reads { Reads result bytes.now }
        ensures whole { Cut separator bytes.now }
    {
        Pieces {
            separator,
            rest: Some(bytes),
            place: 0,
        }
    }

    // What the next piece tells; none if it is missing or unreadable.
    pub fn read<T: Field>(&mut self) -> Option<T>
        ensures value { result ≡ read T.told (head (left self.old)) }
        ensures rest { left self.new ≡ others (left self.old) }
    {
        T::of_text(self.next()?.text)
    }

    // Whether no piece is left.
    #[tactic(auto, using(crate::proofs::Emptied::empty_left))]
    pub fn ended(&self) -> bool
        ensures { result ≡ empty (left self.now) }
    {
        self.rest.is_none()
    }
}

impl<'a> Iterator for Pieces<'a> {
    type Item = Piece<'a>;

    ghost next_gives = { Hands };

    ghost remaining = { λ s. at_most (length (left s)) };

    fn next(&mut self) -> Option<Piece<'a>> {
        let rest = self.rest?;
        let (text, past) = rest.split_at(end(rest, self.separator));
        self.rest = past.get(1..);
        self.place = self.place.saturating_add(1);
        Some(Piece {
            text,
            place: self.place,
        })
    }
}
