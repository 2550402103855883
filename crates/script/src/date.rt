// Dates in a text: year, month and day in digits, parted by hyphens.
ghost use Rattle.script.specs.Dates.{date_text};

use crate::field::Field;
use crate::pieces::Pieces;
use books::date::Date;

impl Field for Date {
    ghost told = { date_text };

    fn of_text(text: &[u8]) -> Option<Date> {
        let mut parts = Pieces::new(text, b'-');
        let numbers = (
            parts.read::<u32>()?,
            parts.read::<u32>()?,
            parts.read::<u32>()?,
        );
        if !parts.ended() {
            return None;
        }
        Date::try_from(numbers).ok()
    }
}
