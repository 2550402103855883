// Which of the waiting messages a taking takes.
ghost use Rattle.std.specs.Prelude.{ℕ, ◌<◌, List, length, SomeIff};
ghost use Rattle.records.specs.declared.message.Message.{Message};

use records::message::Message;

pub trait Choice<V: Copy> {
    // The place that a hint leads to.
    ghost place: { List (Message V) → ℕ → ℕ };

    // What the choice promises of that place.
    ghost Promised: { List (Message V) → ℕ → ℕ → Type 0 };

    // The place that the hint leads to, if a message waits.
    fn choose(waiting: &[Message<V>], hint: u32) -> Option<usize>
        ensures { SomeIff result (0 < length waiting.now) (place waiting.now hint) };

    ghost within: { (waiting : List (Message V)) (hint : ℕ) → 0 < length waiting → place waiting hint < length waiting };

    ghost kept: { (waiting : List (Message V)) (hint : ℕ) → 0 < length waiting → Promised waiting hint (place waiting hint) };
}
