// Images made of texts, by the evaluation hash at 1 with a pad of zeros and through the gather, and checked; and texts that are refused.
use crate::known;
use crate::known::{Refused, Sealed};
use hashes::evaluation::Evaluation;
use hashes::gather::Gather;
use line_reader::make::make;
use register::check::check;
use std::io;
use std::io::Print;
use tally::Tally;

const BUFFER: [u8; 16] = [0, 0, 0, 0, 0, 0, 0, 1, 0, 0, 0, 0, 0, 0, 0, 0];

// Texts that are made.
const MADE: [Sealed; 4] = [
    Sealed {
        what: "none",
        bytes: b"",
        length: 12,
        seal: 0x8000000000000001,
    },
    Sealed {
        what: "one zone",
        bytes: b"zone 7 \"A\"\n",
        length: 18,
        seal: 0x0100030007418001,
    },
    Sealed {
        what: "no line feed at the end",
        bytes: b"zone 7 \"A\"",
        length: 18,
        seal: 0x0100030007418001,
    },
    Sealed {
        what: "a comment and an empty line",
        bytes: b"# the hall\n\nzone 7 \"A\"\n",
        length: 18,
        seal: 0x0100030007418001,
    },
];

// Texts that are refused.
const REFUSED: [Refused; 9] = [
    Refused {
        what: "a leading zero",
        bytes: b"zone 7 \"A\"\n\nzone 07 \"A\"\n",
        refusal: (11, (3, 5)),
    },
    Refused {
        what: "a carriage return",
        bytes: b"zone 7 \"A\"\x0D\n",
        refusal: (11, (1, 10)),
    },
    Refused {
        what: "an escape",
        bytes: b"zone 7 \"A\\q\"",
        refusal: (12, (1, 10)),
    },
    Refused {
        what: "zone 251",
        bytes: b"# the hall\nzone 251 \"A\"",
        refusal: (20, (2, 0)),
    },
    Refused {
        what: "no name",
        bytes: b"zone 7 \"\"\n",
        refusal: (21, (1, 0)),
    },
    Refused {
        what: "a zone twice",
        bytes: b"zone 7 \"A\"\nzone 7 \"A\"\n",
        refusal: (30, (2, 0)),
    },
    Refused {
        what: "a rule on nothing",
        bytes: b"rule 7 3",
        refusal: (31, (1, 0)),
    },
    Refused {
        what: "the earlier line",
        bytes: b"rule 7 3\nzone 07 \"A\"",
        refusal: (31, (1, 0)),
    },
    Refused {
        what: "no room",
        bytes: b"zone 7 \"A\"\npoint 3 7 heat\nrule 7 3\nrule 7 3\nrule 7 3\n",
        refusal: (50, (0, 0)),
    },
];

// The image of no text, which is longer than an output of eleven bytes.
const NO_TEXT: Refused = Refused {
    what: "none, in eleven bytes",
    bytes: b"",
    refusal: (50, (0, 0)),
};

fn all_zero(bytes: &[u8]) -> bool {
    bytes.iter().all(|byte| *byte == 0)
}

// Whether an output holds an image of this length with this seal, which the check passes, and then zeros.
fn holds(out: &[u8], length: usize, seal: u64) -> bool {
    out.split_at_checked(length).is_some_and(|(image, rest)| {
        let passed = check::<Gather<Evaluation>>(&mut { BUFFER }, image);
        passed == Ok(true) && image.ends_with(&seal.to_be_bytes()) && all_zero(rest)
    })
}

fn show_made(rt: &impl Print, tally: &mut Tally, known: &Sealed) -> io::Result<()> {
    let mut buffer = BUFFER;
    let mut out = [0xFF; 40];
    let what = known.what;
    match make::<Gather<Evaluation>>(known.bytes, &mut buffer, &mut out) {
        Ok(length) => {
            let whole = length == known.length && holds(&out, length, known.seal);
            let verdict = tally.verdict(whole && all_zero(&buffer));
            println!(rt; "text, {what}: {length} bytes {verdict}")
        }
        Err(_) => {
            let verdict = tally.verdict(false);
            println!(rt; "text, {what}: not made, {verdict}")
        }
    }
}

fn show_refused(
    rt: &impl Print,
    tally: &mut Tally,
    known: &Refused,
    out: &mut [u8],
) -> io::Result<()> {
    let mut buffer = BUFFER;
    let refusal = make::<Gather<Evaluation>>(known.bytes, &mut buffer, out).err();
    let clean = all_zero(out) && all_zero(&buffer);
    known::show_refusal(rt, tally, "text", known, refusal, clean)
}

pub fn run(rt: &impl Print, tally: &mut Tally) -> io::Result<()> {
    for known in &MADE {
        show_made(rt, tally, known)?;
    }
    for known in &REFUSED {
        show_refused(rt, tally, known, &mut [0xFF; 40])?;
    }
    show_refused(rt, tally, &NO_TEXT, &mut [0xFF; 11])
}
