// Outcomes in a text, each by its number.
ghost use Rattle.script.specs.Outcomes.{outcome_text};

use crate::field::Field;
use terms::outcome::Outcome;

impl Field for Outcome {
    ghost told = { outcome_text };

    fn of_text(text: &[u8]) -> Option<Outcome> {
        Outcome::try_from(u32::of_text(text)?).ok()
    }
}
