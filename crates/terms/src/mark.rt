// What the origin of a transaction knows of the primary's check of one of its lines.
#[derive(Clone, Copy, Debug, PartialEq, Eq)]
pub enum Mark {
    Asked,
    Confirmed,
    Denied,
}
