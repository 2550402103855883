// A whole sitting as definitions, and what holds of it: the law over every run, and that a refusal alters nothing.
#![tactic(auto)]

ghost use Rattle.std.specs.Prelude.{◌≡◌, length, take};
ghost use Rattle.model.specs.Law.{HoldsOf};
ghost use Rattle.model.specs.Runs.{Opened, OpensRight};
ghost use Rattle.model.specs.Unaltered.{Unaltered};
ghost use Rattle.model.specs.Worked.{answers, world_after_all, small_world, asked, expected};
ghost use Rattle.model.specs.World.{World};

use book::rules::RuleBook;

// Answers 0; the contract is that the law holds of every run of every sitting with this book, that a sitting that was
// set up and opened begins such a run, and that a refusal leaves every world as it was, with two exceptions.
pub fn law_stands<B: RuleBook>(book: &B) -> u8
    ensures law { (opened : World B.Value) → HoldsOf (record { modes = B.RuleBook.modes book.now; answer = B.RuleBook.answer book.now }) opened }
    ensures opens { (w : World B.Value) → OpensRight w }
    ensures refusals { (w : World B.Value) → Unaltered (record { modes = B.RuleBook.modes book.now; answer = B.RuleBook.answer book.now }) w }
{
    0
}

// Answers how many calls the worked sitting has; that the definitions give the answers worked out by hand, and that its
// world is one just opened after the second call, is the contract.
pub fn worked_sitting() -> usize
    ensures count { result ≡ length asked }
    ensures computes { answers small_world asked ≡ expected }
    ensures opened { Opened (world_after_all small_world (take 2 asked)) }
{
    17
}
