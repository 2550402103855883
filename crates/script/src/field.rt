// What a field of a script tells.
ghost use Rattle.std.specs.Prelude.{◌≡◌, ℕ, List, Option};

pub trait Field: Copy {
    // What a text tells, if it is readable.
    ghost told: { List ℕ → Option Self };

    fn of_text(text: &[u8]) -> Option<Self>
        ensures { result ≡ told text.now };
}
