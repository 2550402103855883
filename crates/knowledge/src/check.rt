// The primary's check of a line, by the guesses that its transaction made.
ghost use Rattle.std.specs.Prelude.{◌≡◌};
ghost use Rattle.std.specs.List.{list_any};
ghost use Rattle.knowledge.specs.Knowledge.{seen};
ghost use Rattle.knowledge.specs.Check.{reserves, guess_holds, guess_fails, upsets, denied};

use crate::view::View;
use records::line::Line;
use terms::mode;

// The two guesses of a transaction that a primary checks: cases of one definition, and so an enum and no closures.
#[derive(Clone, Copy, Debug, PartialEq, Eq)]
pub enum Guess {
    // no version of the card lies strictly between the time read and the line's time
    ReadLatest,
    // the line's time lies strictly inside no other transaction's reservation of the card
    NoConflict,
}

impl<'a, V: Copy> View<'a, V> {
    // Whether the primary denies a line: one of the guesses that its mode makes does not hold.
    pub fn denies(&self, line: &Line<V>) -> bool
        ensures { result ≡ denied (seen self.now) line.now }
    {
        self.fails(Guess::ReadLatest, line) || self.fails(Guess::NoConflict, line)
    }

    fn fails(&self, guess: Guess, line: &Line<V>) -> bool
        ensures { result ≡ guess_fails (seen self.now) guess line.now }
    {
        let made = match guess {
            Guess::ReadLatest => mode::does_read(line.mode),
            Guess::NoConflict => mode::does_write(line.mode),
        };
        made && !self.holds(guess, line)
    }

    #[tactic(auto, using(crate::proofs::Guesses::guess_upset))]
    fn holds(&self, guess: Guess, line: &Line<V>) -> bool
        ensures { result ≡ guess_holds (seen self.now) guess line.now }
    {
        !self.is_upset(guess, line)
    }

    // Whether some landed line upsets the guess.
    fn is_upset(&self, guess: Guess, line: &Line<V>) -> bool
        ensures { result ≡ list_any (upsets (seen self.now) guess line.now) self.now.lines.now }
    {
        self.lines.iter().any(|l| self.upsets(guess, line, l))
    }

    // Whether a landed line is one for which the guess does not hold. The interval is looked at first, so that no
    // verdict is searched for a line outside it or of another card.
    fn upsets(&self, guess: Guess, line: &Line<V>, l: &Line<V>) -> bool
        ensures { result ≡ upsets (seen self.now) guess line.now l.now }
    {
        match guess {
            Guess::ReadLatest => line.read < l.time
                && l.time < line.time
                && self.written(line.card, false, l),
            Guess::NoConflict => l.read < line.time
                && line.time < l.time
                && self.reserves(line.card, l),
        }
    }

    fn reserves(&self, number: u32, l: &Line<V>) -> bool
        ensures { result ≡ reserves (seen self.now) number l.now }
    {
        l.card == number && l.present(&self.table) && self.stands(false, l.time)
    }
}
