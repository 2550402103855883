// Drives a tray and lanes by commands, one to a line, and prints what came out.
#![tactic(auto)]

use carrier::carrier::Carrier;
use carriers::lanes::Lanes;
use carriers::tray::Tray;
use records::line::Line;
use records::message::Message;
use std::alloc::{AllocError, Global};
use std::str::{FromStr, SplitWhitespace};
use std::{fmt, io};
use terms::fault::Fault;

#[derive(Clone, Copy)]
enum Kind {
    Tray,
    Lanes,
}

impl fmt::Display for Kind {
    fn fmt<W: fmt::Write>(&self, f: &mut fmt::Formatter<W>) -> fmt::Result {
        match self {
            Kind::Tray => write!(f, "tray"),
            Kind::Lanes => write!(f, "lanes"),
        }
    }
}

#[derive(Clone, Copy)]
enum Order {
    Put(Message<u32>),
    Take(u32),
    Count,
}

#[derive(Clone, Copy)]
enum Command {
    New(Kind, usize),
    Do(Order),
}

// A line that has no known form, or something behind it.
#[derive(Clone, Copy)]
struct BadLine;

impl fmt::Display for BadLine {
    fn fmt<W: fmt::Write>(&self, f: &mut fmt::Formatter<W>) -> fmt::Result {
        write!(f, "bad")
    }
}

// The next word, read as a number.
fn number<N: FromStr + Drop>(words: &mut SplitWhitespace<'_>) -> Result<N, BadLine>
where
    N::Err: Drop,
{
    words.next().ok_or(BadLine)?.parse().or(Err(BadLine))
}

fn message(words: &mut SplitWhitespace<'_>) -> Result<Message<u32>, BadLine> {
    let kind = number(words)?;
    let from = number(words)?;
    let to = number(words)?;
    let time = number(words)?;
    Ok(Message {
        kind,
        from,
        to,
        line: Line {
            time,
            number: 0,
            card: 0,
            mode: 0,
            read: 0,
            value: 0,
        },
    })
}

fn named(name: &str, words: &mut SplitWhitespace<'_>) -> Result<Command, BadLine> {
    match name {
        "tray" => Ok(Command::New(Kind::Tray, number(words)?)),
        "lanes" => Ok(Command::New(Kind::Lanes, number(words)?)),
        "put" => Ok(Command::Do(Order::Put(message(words)?))),
        "take" => Ok(Command::Do(Order::Take(number(words)?))),
        "count" => Ok(Command::Do(Order::Count)),
        _ => Err(BadLine),
    }
}

impl FromStr for Command {
    type Err = BadLine;

    fn from_str(line: &str) -> Result<Command, BadLine> {
        let mut words = line.split_whitespace();
        let name = words.next().ok_or(BadLine)?;
        let command = named(name, &mut words)?;
        match words.next() {
            None => Ok(command),
            Some(_) => Err(BadLine),
        }
    }
}

#[derive(Clone, Copy, Default)]
struct Tally {
    put: u64,
    taken: u64,
    refused: u64,
}

impl fmt::Display for Tally {
    fn fmt<W: fmt::Write>(&self, f: &mut fmt::Formatter<W>) -> fmt::Result {
        write!(
            f,
            "{} messages were put, {} were taken and {} calls were refused.",
            self.put, self.taken, self.refused
        )
    }
}

fn one_more(count: &mut u64) {
    *count = count.saturating_add(1);
}

// What the carrier answers to an order, told and tallied.
fn obey<C: Carrier<u32>>(
    rt: &HostRuntime,
    carrier: &mut C,
    order: Order,
    tally: &mut Tally,
) -> io::Result<()> {
    match order {
        Order::Put(message) => match carrier.put(message) {
            Ok(()) => {
                one_more(&mut tally.put);
                println!(rt; "put 0")
            }
            Err(fault) => {
                one_more(&mut tally.refused);
                println!(rt; "put {}", fault.number())
            }
        },
        Order::Take(hint) => match carrier.take(hint) {
            Ok(taken) => {
                one_more(&mut tally.taken);
                let m = taken.message;
                println!(rt;
                    "take 0 {} {} {} {} {}",
                    taken.place, m.kind, m.from, m.to, m.line.time
                )
            }
            Err(fault) => {
                one_more(&mut tally.refused);
                println!(rt; "take {}", fault.number())
            }
        },
        Order::Count => println!(rt; "count {} {}", carrier.count(), carrier.most()),
    }
}

// The carrier that is driven: an enum, since no contract can speak of a `dyn` of a trait that has a parameter.
#[derive(Drop)]
enum Held {
    Tray(Tray<u32>),
    Lanes(Lanes<u32>),
}

impl Held {
    fn new(heap: Global, kind: Kind, most: usize) -> Result<Held, AllocError> {
        match kind {
            Kind::Tray => Ok(Held::Tray(Tray::new(heap, most)?)),
            Kind::Lanes => Ok(Held::Lanes(Lanes::new(heap, most)?)),
        }
    }

    fn obey(&mut self, rt: &HostRuntime, order: Order, tally: &mut Tally) -> io::Result<()> {
        match self {
            Held::Tray(tray) => obey(rt, tray, order, tally),
            Held::Lanes(lanes) => obey(rt, lanes, order, tally),
        }
    }
}

fn main(rt: HostRuntime) -> io::Result<()> {
    let heap = rt.alloc();
    let mut held = Held::new(heap, Kind::Tray, 0)?;
    let mut tally = Tally::default();
    for line in rt.lines(heap) {
        match line?.parse() {
            Err(bad) => println!(rt; "{bad}")?,
            Ok(Command::New(kind, most)) => match Held::new(heap, kind, most) {
                Ok(new) => {
                    held = new;
                    println!(rt; "{kind} {most}")?;
                }
                Err(_) => println!(rt; "no memory")?,
            },
            Ok(Command::Do(order)) => held.obey(&rt, order, &mut tally)?,
        }
    }
    println!(rt; "{tally}")
}
