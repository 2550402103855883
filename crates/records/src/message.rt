// A message between two sites: a line, what is said of it by its kind, and who says it to whom. Plain numbers, since a
// stray one may have any.
use crate::line::Line;

#[derive(Clone, Copy, Debug, PartialEq, Eq)]
pub struct Message<V> {
    pub kind: u32,
    pub from: u32,
    pub to: u32,
    pub line: Line<V>,
}
