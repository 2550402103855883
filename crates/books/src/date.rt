// Dates and the date book: cards that are set, filled, made earlier and compared.
ghost use Rattle.std.specs.Prelude.{◌≡◌, ok_or};
ghost use Rattle.std.specs.Result.{result_ok};
ghost use Rattle.std.proofs.Common.{rules};
ghost use Rattle.terms.specs.Few.{few_list};
ghost use Rattle.book.specs.Meaning.{answer_of, modes_in};
ghost use Rattle.books.specs.Answers.{answer_by};
ghost use Rattle.books.specs.Dates.{is_blank, days_in, lawful, date_key, date_of, earlier, DateOrder, out_of_order, date_code, date_rule, rule_modes, dates_modes, rule_answer, dates_answer};
ghost use Rattle.books.specs.declared.date.DateRefusal.TheVariants.{UnknownRule};

use book::fault::BookFault;
use book::rules::RuleBook;
use std::fmt;
use std::num::TryFromIntError;
use terms::few::Few;
use terms::mode::Mode;

// Why the book declines.
#[derive(Clone, Copy, Debug, PartialEq, Eq)]
pub enum DateRefusal {
    UnknownRule,
    UnlawfulArgument,
    OutOfOrder,
}

impl From<DateRefusal> for BookFault {
    ghost from_gives = { λ refusal fault. fault.code ≡ date_code refusal };

    fn from(refusal: DateRefusal) -> BookFault {
        let code = match refusal {
            DateRefusal::UnknownRule => 0,
            DateRefusal::UnlawfulArgument => 3,
            DateRefusal::OutOfOrder => 5,
        };
        BookFault { code }
    }
}

// All zero is blank.
#[derive(Clone, Copy, Debug, PartialEq, Eq)]
pub struct Date {
    pub year: u16,
    pub month: u8,
    pub day: u8,
}

impl Date {
    pub const BLANK: Date = Date {
        year: 0,
        month: 0,
        day: 0,
    };

    pub fn is_blank(self) -> bool
        ensures { result ≡ is_blank self }
    {
        self == Date::BLANK
    }

    // Whether a rule takes it as an argument.
    pub fn is_lawful(self) -> bool
        ensures { result ≡ lawful self }
    {
        match self {
            Date {
                year: 1500..=1999,
                month: 1..=12,
                day,
            } => 1 <= day && day <= days_in(self.month),
            _ => self.is_blank(),
        }
    }

    // Whether it comes before another; a blank counts as the last of all. This is no `Ord`, whose laws hold of any
    // numbers: the key tells two dates apart only within their bits.
    pub fn earlier_than(self, other: Date) -> bool
        ensures value { result ≡ earlier self other }
        ensures order { DateOrder }
    {
        self.key() < other.key()
    }

    fn key(self) -> u64
        ensures { result ≡ date_key self }
    {
        if self.is_blank() {
            1 << 32
        } else {
            (self.year as u64 * 256 + self.month as u64) * 256 + self.day as u64
        }
    }
}

// The date of a year, a month and a day.
impl TryFrom<(u32, u32, u32)> for Date {
    type Error = TryFromIntError;

    ghost try_from_gives = { λ numbers date. result_ok date ≡ date_of numbers.0 numbers.1 numbers.2 };

    fn try_from((year, month, day): (u32, u32, u32)) -> Result<Date, TryFromIntError> {
        Ok(Date {
            year: year.try_into()?,
            month: month.try_into()?,
            day: day.try_into()?,
        })
    }
}

// Year, month and day parted by hyphens.
impl fmt::Display for Date {
    fn fmt<W: fmt::Write>(&self, f: &mut fmt::Formatter<W>) -> fmt::Result {
        let (year, month, day) = (self.year, self.month, self.day);
        write!(f, "{year}-{month}-{day}")
    }
}

fn days_in(month: u8) -> u8
    ensures { result ≡ days_in month }
{
    match month {
        2 => 29,
        4 | 6 | 9 | 11 => 30,
        _ => 31,
    }
}

fn out_of_order(first: Date, second: Date) -> bool
    ensures { result ≡ out_of_order first second }
{
    !first.is_blank() && !second.is_blank() && second.earlier_than(first)
}

#[derive(Clone, Copy, Debug, PartialEq, Eq)]
pub enum DateRule {
    Set,
    Fill,
    Earlier,
    Compare,
}

// A match, as for the modes of lines.
impl TryFrom<u32> for DateRule {
    type Error = DateRefusal;

    ghost try_from_gives = { λ number rule. rule ≡ ok_or (date_rule number) UnknownRule };

    fn try_from(number: u32) -> Result<DateRule, DateRefusal> {
        match number {
            1 => Ok(DateRule::Set),
            2 => Ok(DateRule::Fill),
            3 => Ok(DateRule::Earlier),
            4 => Ok(DateRule::Compare),
            _ => Err(DateRefusal::UnknownRule),
        }
    }
}

impl DateRule {
    fn modes(self) -> Few<Mode>
        ensures { modes_in result ≡ rule_modes self }
    {
        match self {
            DateRule::Set => Few::One(Mode::Write),
            DateRule::Fill | DateRule::Earlier => Few::One(Mode::Update),
            DateRule::Compare => Few::Two(Mode::Read, Mode::Read),
        }
    }

    // The dates to write, from an argument and the first two dates read.
    fn answer(self, argument: Date, first: Date, second: Date) -> Result<Few<Date>, DateRefusal>
        ensures { answer_by date_code result ≡ rule_answer self argument first second }
    {
        if !argument.is_lawful() {
            return Err(DateRefusal::UnlawfulArgument);
        }
        match self {
            DateRule::Set => Ok(Few::One(argument)),
            DateRule::Fill if first.is_blank() => Ok(Few::One(argument)),
            DateRule::Earlier if argument.earlier_than(first) => Ok(Few::One(argument)),
            DateRule::Fill | DateRule::Earlier => Ok(Few::One(first)),
            DateRule::Compare if out_of_order(first, second) => Err(DateRefusal::OutOfOrder),
            DateRule::Compare => Ok(Few::Nothing),
        }
    }
}

#[derive(Clone, Copy)]
pub struct Dates;

// Each book implements the trait itself, so that what it answers is in its own file.
impl RuleBook for Dates {
    type Value = Date;

    ghost modes = { λ _ rule. dates_modes rule };

    ghost answer = { λ _ rule argument read. dates_answer rule argument read };

    ghost few = { Prim.search rules };

    ghost known = { Prim.search rules };

    ghost sized = { Prim.search rules };

    fn modes_of(&self, rule: u32) -> Few<Mode> {
        match DateRule::try_from(rule) {
            Ok(rule) => rule.modes(),
            Err(_) => Few::Nothing,
        }
    }

    fn run(&self, rule: u32, argument: Date, read: Few<Date>) -> Result<Few<Date>, BookFault>
        ensures { answer_of result ≡ dates_answer rule argument (few_list read) }
    {
        let first = read.get(0).unwrap_or(Date::BLANK);
        let second = read.get(1).unwrap_or(Date::BLANK);
        Ok(DateRule::try_from(rule)?.answer(argument, first, second)?)
    }
}
