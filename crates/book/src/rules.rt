// What any book of rules tells, and the laws that hold of each.
ghost use Rattle.std.specs.Prelude.{◌≡◌, ℕ, ◌≤◌, List, length};
ghost use Rattle.terms.specs.Few.{few_list};
ghost use Rattle.book.specs.Meaning.{Answer, answer_of, modes_in, ModesKnown, OneForEachWrite};

use crate::fault::BookFault;
use terms::few::Few;
use terms::mode::Mode;

// A book of rules over the values that its cards hold. A question changes nothing.
pub trait RuleBook {
    type Value: Copy;

    // The modes of a rule's lines, in their order; none if there is no such rule.
    ghost modes: { Self → ℕ → List ℕ };

    // What a rule answers to an argument and the values of the cards that it reads, whatever the rule and however many.
    ghost answer: { Self → ℕ → Self.Value → List Self.Value → Answer Self.Value };

    fn modes_of(&self, rule: u32) -> Few<Mode>
        ensures { modes_in result ≡ modes self.now rule };

    fn run(
        &self,
        rule: u32,
        argument: Self::Value,
        read: Few<Self::Value>,
    ) -> Result<Few<Self::Value>, BookFault>
        ensures { answer_of result ≡ answer self.now rule argument (few_list read) };

    // A rule has at most four lines.
    ghost few: { (b : Self) (rule : ℕ) → length (modes b rule) ≤ 4 };

    // Each line reads, writes or does both.
    ghost known: { (b : Self) (rule : ℕ) → ModesKnown (modes b rule) };

    // A rule that does not decline gives one value for each line that writes.
    ghost sized: { (b : Self) (rule : ℕ) (argument : Self.Value) (read : List Self.Value) → OneForEachWrite (modes b rule) (answer b rule argument read) };
}
