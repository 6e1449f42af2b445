// A line as read.
use crate::kind::Kind;

#[derive(Clone, Copy, Debug, PartialEq, Eq)]
pub enum Line<'a> {
    // An empty line or a comment.
    Blank,
    // The name as it is written, a part of the line.
    Zone { number: u32, name: &'a [u8] },
    Point { number: u32, zone: u32, kind: Kind },
    Rule { zone: u32, point: u32 },
}
