// Registers of bounded length, whose memory is all taken when they are made; the bound is part of the type, where a
// carrier's is chosen as it runs.
ghost use Rattle.std.specs.Prelude.{◌≡◌, ◌≤◌, [], List, IfOk, vec_len, vec_capacity};
ghost use Rattle.desk.specs.Registers.{push_answer, pushed};
ghost use Rattle.site.specs.declared.fault.SiteFault.TheVariants.{Foreign};

use site::fault::SiteFault;
use std::alloc::{AllocError, Global};
use std::marker::Model;

// At most so many records, in the order in which they came. The two bounds of its length and its memory stay: an array
// of fixed capacity would want a blank record for each place that is free.
#[derive(Drop)]
pub struct Register<X: Copy, const MOST: usize> {
    records: Vec<X>,
}

impl<X: Copy, const MOST: usize> Model for Register<X, MOST> {
    ghost Value = { List X };

    ghost view = { λ r. r.records.items };

    ghost invariant = { λ r. (vec_len r.records ≤ MOST) × (MOST ≤ vec_capacity r.records) };
}

// No room is left for a record.
#[derive(Clone, Copy, Debug, PartialEq, Eq)]
pub struct Full;

impl From<Full> for SiteFault {
    ghost from_gives = { λ _ fault. fault ≡ Foreign };

    fn from(_full: Full) -> SiteFault {
        SiteFault::Foreign
    }
}

impl<X: Copy, const MOST: usize> Register<X, MOST> {
    pub fn new(heap: Global) -> Result<Register<X, MOST>, AllocError>
        ensures { IfOk result (λ r. r ≡ []) }
    {
        Ok(Register {
            records: Vec::with_capacity(heap, MOST)?,
        })
    }

    pub fn as_slice(&self) -> &[X]
        ensures { result.now ≡ self.now }
    {
        self.records.as_slice()
    }

    // Puts a record behind the others, unless the register is full.
    pub fn push(&mut self, newest: X) -> Result<(), Full>
        ensures answer { result ≡ push_answer MOST self.old }
        ensures after { self.new ≡ pushed MOST self.old newest }
    {
        if self.records.len() == MOST {
            return Err(Full);
        }
        self.records.push_reserved(newest);
        Ok(())
    }
}
