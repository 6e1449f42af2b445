// How many zones, points and kinds a site may have, and how long its names and its message may be.

// Zones are numbered from 1 up to this.
pub const ZONES: u32 = 250;

// Points, likewise.
pub const POINTS: u32 = 1000;

// Kinds of points, likewise.
pub const KINDS: u32 = 4;

// The most bytes that a name may have.
pub const LONGEST_NAME: usize = 40;

// The most bytes that a message may have.
pub const LONGEST_MESSAGE: usize = 60_000;
