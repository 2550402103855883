// How answers are written: fields parted by tabs.
use crate::reply::{Reply, Summary};
use std::fmt;
use terms::fault::Fault;

impl fmt::Display for Reply {
    fn fmt<W: fmt::Write>(&self, f: &mut fmt::Formatter<W>) -> fmt::Result {
        match self {
            Reply::Bad(place) => write!(f, "bad\t{place}"),
            Reply::Late => f.write_str("late"),
            Reply::Opened => f.write_str("opening\t0"),
            Reply::Judged(Ok(judgement)) => write!(f, "line\t0\t{judgement}"),
            Reply::Judged(Err(fault)) => write!(f, "line\t{}", fault.number()),
            Reply::Recorded(Ok(())) => f.write_str("verdict\t0"),
            Reply::Recorded(Err(fault)) => write!(f, "verdict\t{}", fault.number()),
            Reply::Values(current, committed) => write!(
                f,
                "value\t0\t{}\t{}\t{}\t{}",
                current.time, current.value, committed.time, committed.value
            ),
        }
    }
}

impl fmt::Display for Summary {
    fn fmt<W: fmt::Write>(&self, f: &mut fmt::Formatter<W>) -> fmt::Result {
        write!(
            f,
            "Of {} lines judged, {} were confirmed and {} denied; ",
            self.judged, self.confirmed, self.denied
        )?;
        match self.reads {
            Some(version) => write!(f, "the card now reads {}.", version.value),
            None => f.write_str("no card was opened."),
        }
    }
}
