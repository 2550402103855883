// What is answered to a line of the arrivals script, and what is said at its end.
use books::date::Date;
use knowledge::judge::Judgement;
use knowledge::versions::Version;
use site::fault::SiteFault;

#[derive(Clone, Copy, Debug, PartialEq, Eq)]
pub enum Reply {
    // the line has no known form; the number of its first bad field
    Bad(u32),
    // the card is not open yet, or is to be opened a second time
    Late,
    Opened,
    Judged(Result<Judgement, SiteFault>),
    Recorded(Result<(), SiteFault>),
    // the current and the committed value
    Values(Version<Date>, Version<Date>),
}

// How many lines were judged, confirmed and denied, and what the card reads, if it is open.
#[derive(Clone, Copy, Debug, PartialEq, Eq)]
pub struct Summary {
    pub judged: u64,
    pub confirmed: u64,
    pub denied: u64,
    pub reads: Option<Version<Date>>,
}
