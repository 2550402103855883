// A card's value as a field of a script: a number for the tally book, year-month-day for the date book.
ghost use Rattle.std.specs.Prelude.{◌≡◌, ℕ, ◌^◌, ◌<◌, List, Some, decimal};
ghost use Rattle.script.specs.Dates.{date_written, DateFits};
ghost use Rattle.script.specs.Forms.{read};
ghost use Rattle.script.specs.Pieces.{head, others, Lacks};
ghost use Rattle.script.specs.Readers.{left};
ghost use Rattle.script.proofs.Writing.{numeral_decimal, lacks_decimal, date_back, date_lacks};
ghost use Rattle.std.proofs.Common.{arith};

use books::date::Date;
use script::field::Field;
use script::pieces::Pieces;

pub trait FieldValue: Field {
    // The field that a value is written as.
    ghost text: { Self → List ℕ };

    // The value's numbers have their bits.
    ghost fits: { Self → Type 0 };

    // The value that the next field tells; none if it is missing or unreadable.
    fn next_in(fields: &mut Pieces) -> Option<Self>
        ensures value { result ≡ read Self.told (head (left fields.old)) }
        ensures rest { left fields.new ≡ others (left fields.old) }
    {
        fields.read()
    }

    // A value that was written is told again, and its field has no tab.
    ghost back: { (v : Self) → fits v → (Self.told (text v) ≡ Some v) × Lacks 9 (text v) };
}

impl FieldValue for u32 {
    ghost text = { decimal };

    ghost fits = { λ n. n < 2 ^ 32 };

    ghost back = { λ v fits. (numeral_decimal v fits, lacks_decimal 9 v (λ a b. omega arith) fits) };
}

impl FieldValue for Date {
    ghost text = { date_written };

    ghost fits = { DateFits };

    ghost back = { λ v fits. (date_back v fits, date_lacks v fits) };
}
