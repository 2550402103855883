// Worked examples of the primary's check and of the tally book, proved.
#![tactic(auto)]

ghost use Rattle.std.specs.Prelude.{◌≡◌, length};
ghost use Rattle.std.specs.List.{All};
ghost use Rattle.examples.specs.Examples.{Holds, examples};

// Answers how many examples there are; that each of them holds is the contract.
pub fn examples_hold() -> usize
    ensures count { result ≡ length examples }
    ensures hold { All Holds examples }
{
    10
}
