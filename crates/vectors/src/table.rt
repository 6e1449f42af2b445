// Lines of a site file with the readings that they must have, worked out by hand.

// A zone line, its number, and the bytes of its name.
#[derive(Clone, Copy, Debug, PartialEq, Eq)]
pub struct ZoneLine {
    pub line: &'static str,
    pub number: u32,
    pub name: &'static [u8],
}

// A point line, its number, its zone, and the number of its kind, not the kind, so that its number is compared.
#[derive(Clone, Copy, Debug, PartialEq, Eq)]
pub struct PointLine {
    pub line: &'static str,
    pub number: u32,
    pub zone: u32,
    pub kind: u8,
}

// A rule line, its zone and its point.
#[derive(Clone, Copy, Debug, PartialEq, Eq)]
pub struct RuleLine {
    pub line: &'static str,
    pub zone: u32,
    pub point: u32,
}

// A line that says nothing.
#[derive(Clone, Copy, Debug, PartialEq, Eq)]
pub struct BlankLine {
    pub what: &'static str,
    pub line: &'static [u8],
}

// A line that is refused, by which number and at which column. The number, not the fault, so that it is compared.
#[derive(Clone, Copy, Debug, PartialEq, Eq)]
pub struct RefusedLine {
    pub what: &'static str,
    pub line: &'static [u8],
    pub number: u8,
    pub column: usize,
}

pub const ZONES: [ZoneLine; 5] = [
    ZoneLine {
        line: "zone 2 \"Stair \\\"B\\\"\"",
        number: 2,
        name: b"Stair \"B\"",
    },
    ZoneLine {
        line: "zone 7 \"\"",
        number: 7,
        name: b"",
    },
    ZoneLine {
        line: "zone 12345 \"Hall\"",
        number: 12345,
        name: b"Hall",
    },
    ZoneLine {
        line: "zone 99999 \" ~\"",
        number: 99999,
        name: b" ~",
    },
    ZoneLine {
        line: "zone 1 \"\\\\\\\"\\n\\n\"",
        number: 1,
        name: b"\\\"\n\n",
    },
];

pub const POINTS: [PointLine; 4] = [
    PointLine {
        line: "point 1 7 smoke",
        number: 1,
        zone: 7,
        kind: 1,
    },
    PointLine {
        line: "point 1000 250 heat",
        number: 1000,
        zone: 250,
        kind: 2,
    },
    PointLine {
        line: "point 3 7 call",
        number: 3,
        zone: 7,
        kind: 3,
    },
    PointLine {
        line: "point 4 7 sounder",
        number: 4,
        zone: 7,
        kind: 4,
    },
];

pub const RULES: [RuleLine; 2] = [
    RuleLine {
        line: "rule 7 3",
        zone: 7,
        point: 3,
    },
    RuleLine {
        line: "rule 99999 12345",
        zone: 99999,
        point: 12345,
    },
];

pub const BLANKS: [BlankLine; 4] = [
    BlankLine {
        what: "an empty line",
        line: b"",
    },
    BlankLine {
        what: "a comment of one byte",
        line: b"#",
    },
    BlankLine {
        what: "a comment",
        line: b"# zone 7 \"",
    },
    BlankLine {
        what: "a comment with FF and 00",
        line: b"#\xFF\x00",
    },
];

pub const REFUSED: [RefusedLine; 23] = [
    RefusedLine {
        what: "zone 07 \"A\"",
        line: b"zone 07 \"A\"",
        number: 11,
        column: 5,
    },
    RefusedLine {
        what: "zone 7 \"A\\q\"",
        line: b"zone 7 \"A\\q\"",
        number: 12,
        column: 10,
    },
    RefusedLine {
        what: "zone 7 \"A",
        line: b"zone 7 \"A",
        number: 11,
        column: 9,
    },
    RefusedLine {
        what: "zone 7 \"A\\",
        line: b"zone 7 \"A\\",
        number: 12,
        column: 10,
    },
    RefusedLine {
        what: "zone 123456 \"A\"",
        line: b"zone 123456 \"A\"",
        number: 11,
        column: 10,
    },
    RefusedLine {
        what: "rule 1 123456",
        line: b"rule 1 123456",
        number: 11,
        column: 12,
    },
    RefusedLine {
        what: "zone 7 \"A\" ",
        line: b"zone 7 \"A\" ",
        number: 11,
        column: 10,
    },
    RefusedLine {
        what: "rule 7 3 ",
        line: b"rule 7 3 ",
        number: 11,
        column: 8,
    },
    RefusedLine {
        what: "point 3 7 smoke ",
        line: b"point 3 7 smoke ",
        number: 11,
        column: 15,
    },
    RefusedLine {
        what: "rule  7 3",
        line: b"rule  7 3",
        number: 11,
        column: 5,
    },
    RefusedLine {
        what: " rule 7 3",
        line: b" rule 7 3",
        number: 11,
        column: 0,
    },
    RefusedLine {
        what: "point 3 7 flame",
        line: b"point 3 7 flame",
        number: 11,
        column: 10,
    },
    RefusedLine {
        what: "point 3 7 smog",
        line: b"point 3 7 smog",
        number: 11,
        column: 13,
    },
    RefusedLine {
        what: "point 3 7 sound",
        line: b"point 3 7 sound",
        number: 11,
        column: 15,
    },
    RefusedLine {
        what: "zone 0 \"A\"",
        line: b"zone 0 \"A\"",
        number: 11,
        column: 5,
    },
    RefusedLine {
        what: "zone \"A\"",
        line: b"zone \"A\"",
        number: 11,
        column: 5,
    },
    RefusedLine {
        what: "Zone 7 \"A\"",
        line: b"Zone 7 \"A\"",
        number: 11,
        column: 0,
    },
    RefusedLine {
        what: "a line feed in a name",
        line: b"zone 7 \"A\nB\"",
        number: 11,
        column: 9,
    },
    RefusedLine {
        what: "a line feed at the end",
        line: b"rule 7 3\n",
        number: 11,
        column: 8,
    },
    RefusedLine {
        what: "a line feed alone",
        line: b"\n",
        number: 11,
        column: 0,
    },
    RefusedLine {
        what: "a line feed in a comment",
        line: b"# a\nb",
        number: 11,
        column: 3,
    },
    RefusedLine {
        what: "7F in a name",
        line: b"zone 7 \"\x7F\"",
        number: 11,
        column: 8,
    },
    RefusedLine {
        what: "C3 A9 in a name",
        line: b"zone 7 \"\xC3\xA9\"",
        number: 11,
        column: 8,
    },
];

// Lines of which every beginning but the empty one is refused at its own length.
pub const SAMPLES: [&str; 3] = ["zone 7 \"A\"", "point 3 7 smoke", "rule 7 3"];
