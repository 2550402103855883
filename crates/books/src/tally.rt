// The tally book: counts up to 999,999 that are set, added to, moved and summed.
ghost use Rattle.std.specs.Prelude.{◌≡◌, ◌+◌, ok_or};
ghost use Rattle.std.proofs.Common.{rules};
ghost use Rattle.book.specs.Meaning.{answer_of, modes_in};
ghost use Rattle.terms.specs.Few.{few_list};
ghost use Rattle.books.specs.Answers.{answer_by};
ghost use Rattle.books.specs.Tallies.{counted, tally_code, tally_rule, rule_modes, tally_modes, moving, rule_answer, tally_answer};
ghost use Rattle.books.specs.declared.tally.TallyRefusal.TheVariants.{UnknownRule};

use book::fault::BookFault;
use book::rules::RuleBook;
use terms::few::Few;
use terms::mode::Mode;

const LIMIT: u32 = 999_999;

// Why the book declines.
#[derive(Clone, Copy, Debug, PartialEq, Eq)]
pub enum TallyRefusal {
    UnknownRule,
    AboveLimit,
    TooFew,
    ArgumentAboveLimit,
}

impl From<TallyRefusal> for BookFault {
    ghost from_gives = { λ refusal fault. fault.code ≡ tally_code refusal };

    fn from(refusal: TallyRefusal) -> BookFault {
        let code = match refusal {
            TallyRefusal::UnknownRule => 0,
            TallyRefusal::AboveLimit => 1,
            TallyRefusal::TooFew => 2,
            TallyRefusal::ArgumentAboveLimit => 3,
        };
        BookFault { code }
    }
}

#[derive(Clone, Copy, Debug, PartialEq, Eq)]
pub enum TallyRule {
    Set,
    Add,
    Move,
    Sum,
}

// A match, as for the modes of lines.
impl TryFrom<u32> for TallyRule {
    type Error = TallyRefusal;

    ghost try_from_gives = { λ number rule. rule ≡ ok_or (tally_rule number) UnknownRule };

    fn try_from(number: u32) -> Result<TallyRule, TallyRefusal> {
        match number {
            1 => Ok(TallyRule::Set),
            2 => Ok(TallyRule::Add),
            3 => Ok(TallyRule::Move),
            4 => Ok(TallyRule::Sum),
            _ => Err(TallyRefusal::UnknownRule),
        }
    }
}

impl TallyRule {
    fn modes(self) -> Few<Mode>
        ensures { modes_in result ≡ rule_modes self }
    {
        match self {
            TallyRule::Set => Few::One(Mode::Write),
            TallyRule::Add => Few::One(Mode::Update),
            TallyRule::Move => Few::Two(Mode::Update, Mode::Update),
            TallyRule::Sum => Few::Three(Mode::Read, Mode::Read, Mode::Write),
        }
    }

    // The counts to write, from an argument and the first two counts read.
    fn answer(self, argument: u32, first: u32, second: u32) -> Result<Few<u32>, TallyRefusal>
        ensures { answer_by tally_code result ≡ rule_answer self argument first second }
    {
        if argument > LIMIT {
            return Err(TallyRefusal::ArgumentAboveLimit);
        }
        match self {
            TallyRule::Set => Ok(Few::One(argument)),
            TallyRule::Add => Ok(Few::One(sum(first, argument)?)),
            TallyRule::Move => moved(argument, first, second),
            TallyRule::Sum => Ok(Few::One(sum(first, second)?)),
        }
    }
}

fn within_limit(count: u32) -> Result<u32, TallyRefusal>
    ensures { result ≡ counted count }
{
    if count <= LIMIT {
        Ok(count)
    } else {
        Err(TallyRefusal::AboveLimit)
    }
}

fn sum(a: u32, b: u32) -> Result<u32, TallyRefusal>
    ensures { result ≡ counted (a + b) }
{
    within_limit(a.saturating_add(b))
}

// The two cards of a move as they are written.
fn moved(argument: u32, from: u32, to: u32) -> Result<Few<u32>, TallyRefusal>
    ensures { answer_by tally_code result ≡ moving argument from to }
{
    let rest = from.checked_sub(argument).ok_or(TallyRefusal::TooFew)?;
    Ok(Few::Two(within_limit(rest)?, sum(to, argument)?))
}

#[derive(Clone, Copy)]
pub struct Tally;

// Each book implements the trait itself, so that what it answers is in its own file.
impl RuleBook for Tally {
    type Value = u32;

    ghost modes = { λ _ rule. tally_modes rule };

    ghost answer = { λ _ rule argument read. tally_answer rule argument read };

    ghost few = { Prim.search rules };

    ghost known = { Prim.search rules };

    ghost sized = { Prim.search rules };

    fn modes_of(&self, rule: u32) -> Few<Mode> {
        match TallyRule::try_from(rule) {
            Ok(rule) => rule.modes(),
            Err(_) => Few::Nothing,
        }
    }

    fn run(&self, rule: u32, argument: u32, read: Few<u32>) -> Result<Few<u32>, BookFault>
        ensures { answer_of result ≡ tally_answer rule argument (few_list read) }
    {
        let first = read.get(0).unwrap_or(0);
        let second = read.get(1).unwrap_or(0);
        Ok(TallyRule::try_from(rule)?.answer(argument, first, second)?)
    }
}
