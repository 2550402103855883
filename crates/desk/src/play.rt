// The arrivals script played line by line, and the answer to each line.
ghost use Rattle.std.specs.Prelude.{◌≡◌, IfOk, if◌then◌else◌};
ghost use Rattle.desk.specs.Playing.{Desk, fresh, reply, values_reply, desk_after, line_desk, on_site, summed};
ghost use Rattle.knowledge.specs.Versions.{current, committed_value};
ghost use Rattle.desk.specs.Steps.{is_open, open_after, line_answer};
ghost use Rattle.desk.specs.declared.reply.Reply.TheVariants.{Late, Opened, Judged};

use crate::primary::Primary;
use crate::register::Full;
use crate::reply::{Reply, Summary};
use books::date::Date;
use knowledge::judge::Judgement;
use records::line::Line;
use records::verdict::Verdict;
use script::arrival::Arrival;
use std::alloc::{AllocError, Global};
use std::marker::Model;

// The primary of one card of the date book, and how many lines it confirmed and denied.
#[derive(Drop)]
pub struct Play {
    primary: Primary<Date>,
    confirmed: u64,
    denied: u64,
}

impl Model for Play {
    ghost Value = { Desk };

    ghost view = { λ p. record { site = p.primary; confirmed = p.confirmed; denied = p.denied } };
}

impl Play {
    // A primary with all its records free, whose card is not open yet.
    pub fn new(heap: Global) -> Result<Play, AllocError>
        ensures { IfOk result (λ p. p ≡ fresh) }
    {
        Ok(Play {
            primary: Primary::new(heap)?,
            confirmed: 0,
            denied: 0,
        })
    }

    // Answers a line of the script by its form.
    pub fn answer(&mut self, form: Result<Arrival, u32>) -> Reply
        ensures value { result ≡ reply self.old.site form }
        ensures after { self.new ≡ desk_after self.old form }
    {
        match form {
            Err(place) => Reply::Bad(place),
            Ok(Arrival::Opening(date)) => self.opening(date),
            Ok(_) if !self.primary.is_open() => Reply::Late,
            Ok(
                Arrival::Line {
                    time,
                    mode,
                    read,
                    date,
                },
            ) => self.line(Line {
                time,
                number: 1,
                card: 0,
                mode,
                read,
                value: date,
            }),
            Ok(Arrival::Verdict { time, outcome }) => Reply::Recorded(
                self.primary.verdict(Verdict { time, outcome }),
            ),
            Ok(Arrival::Value) => self.values(),
        }
    }

    // What was done so far.
    pub fn summary(&self) -> Summary
        ensures { result ≡ summed self.now }
    {
        Summary {
            judged: self.confirmed.saturating_add(self.denied),
            confirmed: self.confirmed,
            denied: self.denied,
            reads: self.primary.current(),
        }
    }

    fn opening(&mut self, date: Date) -> Reply
        ensures value { result ≡ (if is_open self.old.site then Late else Opened) }
        ensures after { self.new ≡ on_site self.old (open_after self.old.site date) }
    {
        match self.primary.open(date) {
            Ok(()) => Reply::Opened,
            Err(Full) => Reply::Late,
        }
    }

    fn line(&mut self, line: Line<Date>) -> Reply
        ensures value { result ≡ Judged (line_answer self.old.site line) }
        ensures after { self.new ≡ line_desk self.old line }
    {
        let judged = self.primary.line(line);
        match judged {
            Ok(Judgement::Confirmed) => self.confirmed = self.confirmed.saturating_add(1),
            Ok(Judgement::Denied) => self.denied = self.denied.saturating_add(1),
            _ => {}
        }
        Reply::Judged(judged)
    }

    fn values(&self) -> Reply
        ensures { result ≡ values_reply (current self.now.site 0) (committed_value self.now.site 0) }
    {
        match (self.primary.current(), self.primary.committed_value()) {
            (Some(current), Some(committed)) => Reply::Values(current, committed),
            _ => Reply::Late,
        }
    }
}
