// Whole inputs of the program, a code byte, a key buffer and a text: the seals and the refusals that they must get.
use crate::known;
use crate::known::{Refused, Sealed};
use line_reader::fault::Refusal;
use line_reader::site_input::seal_input;
use std::io;
use std::io::Print;
use tally::Tally;

// Inputs that are sealed.
const SEALED: [Sealed; 3] = [
    Sealed {
        what: "division, no record",
        bytes: b"\x01\0\0\0\0\0\0\0\x1B\0\0\0\0\0\0\0\0",
        length: 12,
        seal: 0x000000000000001B,
    },
    Sealed {
        what: "Toeplitz, no record",
        bytes: b"\x02\0\0\0\0\0\0\0\x1B\0\0\0\0\0\0\0\x01\0\0\0\0\0\0\0\0",
        length: 12,
        seal: 0x0000000000000001,
    },
    Sealed {
        what: "evaluation, one zone",
        bytes: b"\x03\0\0\0\0\0\0\0\x01\0\0\0\0\0\0\0\0zone 7 \"A\"\n",
        length: 18,
        seal: 0x0100030007418001,
    },
];

// Inputs that are refused.
const REFUSED: [Refused; 12] = [
    Refused {
        what: "15 bytes of key buffer",
        bytes: b"\x01\0\0\0\0\0\0\0\x1B\0\0\0\0\0\0\0",
        refusal: (1, (0, 0)),
    },
    Refused {
        what: "the point zero",
        bytes: b"\x03\0\0\0\0\0\0\0\0\0\0\0\0\0\0\0\0",
        refusal: (2, (0, 0)),
    },
    Refused {
        what: "a square polynomial",
        bytes: b"\x01\0\0\0\0\0\0\0\x05\0\0\0\0\0\0\0\0",
        refusal: (3, (0, 0)),
    },
    Refused {
        what: "nothing",
        bytes: b"",
        refusal: (4, (0, 0)),
    },
    Refused {
        what: "the code 00",
        bytes: b"\x00\0\0\0\0\0\0\0\x01\0\0\0\0\0\0\0\0",
        refusal: (4, (0, 0)),
    },
    Refused {
        what: "the code 04",
        bytes: b"\x04\0\0\0\0\0\0\0\x01\0\0\0\0\0\0\0\0",
        refusal: (4, (0, 0)),
    },
    Refused {
        what: "a leading zero",
        bytes: b"\x03\0\0\0\0\0\0\0\x01\0\0\0\0\0\0\0\0zone 07 \"A\"",
        refusal: (11, (1, 5)),
    },
    Refused {
        what: "no escape",
        bytes: b"\x03\0\0\0\0\0\0\0\x01\0\0\0\0\0\0\0\0# the hall\nzone 7 \"A\\q\"\n",
        refusal: (12, (2, 10)),
    },
    Refused {
        what: "zone 251",
        bytes: b"\x03\0\0\0\0\0\0\0\x01\0\0\0\0\0\0\0\0zone 251 \"A\"",
        refusal: (20, (1, 0)),
    },
    Refused {
        what: "no name",
        bytes: b"\x03\0\0\0\0\0\0\0\x01\0\0\0\0\0\0\0\0zone 7 \"\"",
        refusal: (21, (1, 0)),
    },
    Refused {
        what: "zone 7 twice",
        bytes: b"\x03\0\0\0\0\0\0\0\x01\0\0\0\0\0\0\0\0zone 7 \"A\"\nzone 7 \"A\"\n",
        refusal: (30, (2, 0)),
    },
    Refused {
        what: "a rule on nothing",
        bytes: b"\x03\0\0\0\0\0\0\0\x01\0\0\0\0\0\0\0\0rule 7 3",
        refusal: (31, (1, 0)),
    },
];

// One byte more than an input may have. The number itself, since it is a known value.
const TOO_MANY: usize = 65_537;

// The longest of the inputs here. Sealing zeroes its input, so a copy of each is sealed, in fixed memory, so that nothing here can run out of it.
const ROOM: usize = 64;

// What the program answers to an input: the image's length and the seal, or a refusal. None where the input has no room.
fn answer(input: &[u8]) -> Option<Result<(usize, u64), Refusal>> {
    let mut copy = [0; ROOM];
    let part = copy.get_mut(..input.len())?;
    part.copy_from_slice(input);
    Some(seal_input(part))
}

fn show_sealed(rt: &impl Print, tally: &mut Tally, known: &Sealed) -> io::Result<()> {
    let what = known.what;
    match answer(known.bytes) {
        Some(Ok((length, seal))) => {
            let verdict = tally.verdict(length == known.length && seal == known.seal);
            println!(rt; "input, {what}: {length} {seal:016X} {verdict}")
        }
        _ => {
            let verdict = tally.verdict(false);
            println!(rt; "input, {what}: not sealed, {verdict}")
        }
    }
}

// Its bytes are made in `run`.
const TOO_LONG: Refused = Refused {
    what: "65537 bytes",
    bytes: b"",
    refusal: (5, (0, 0)),
};

pub fn run(rt: &impl Print, tally: &mut Tally) -> io::Result<()> {
    for known in &SEALED {
        show_sealed(rt, tally, known)?;
    }
    for known in &REFUSED {
        let refusal = answer(known.bytes).and_then(|found| found.err());
        known::show_refusal(rt, tally, "input", known, refusal, true)?;
    }
    let refusal = seal_input(&mut [0; TOO_MANY]).err();
    known::show_refusal(rt, tally, "input", &TOO_LONG, refusal, true)
}
