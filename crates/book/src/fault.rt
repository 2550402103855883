// A book's refusal.
use terms::fault::{Fault, Refusal};

// The book declines, for the reason that its code names: a number, since each book has reasons of its own.
#[derive(Clone, Copy, Debug, PartialEq, Eq)]
pub struct BookFault {
    pub code: u32,
}

impl Fault for BookFault {
    ghost told = { λ f. record { number = 11; line = 0; code = f.code } };

    fn refusal(&self) -> Refusal {
        Refusal {
            code: self.code,
            ..Refusal::plain(11)
        }
    }
}
