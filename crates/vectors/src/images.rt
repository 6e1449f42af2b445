// Images checked through the gather: whole, and damaged in every field.
use crate::buffers;
use hashes::division::Division;
use hashes::evaluation::Evaluation;
use hashes::family::Family;
use hashes::gather::Gather;
use hashes::toeplitz::Toeplitz;
use line_reader::make::make;
use register::check::check;
use std::io;
use std::io::Print;
use tally::Tally;

// Zone 7 with the name A, point 3 in it, a rule, and the seal field.
const IMAGE: [u8; 33] = [
    0x01, 0x00, 0x03, 0x00, 0x07, 0x41, 0x02, 0x00, 0x05, 0x00, 0x03, 0x00, 0x07, 0x02, 0x03, 0x00,
    0x04, 0x00, 0x07, 0x00, 0x03, 0x53, 0x00, 0x09, 0x01, 0x30, 0xB8, 0xAD, 0x8E, 0x20, 0x51, 0x56,
    0x8B,
];

// A text with these records.
const TEXT: &[u8] = b"zone 7 \"A\"\npoint 3 7 heat\nrule 7 3\n";

// What the check of an image answers: its verdict, or the number and the offset of its fault. The number is compared, not the fault.
type Answer = Result<bool, (u8, usize)>;

// A byte of the image that is another, and what the check then answers.
#[derive(Clone, Copy, Debug, PartialEq, Eq)]
struct Damage {
    what: &'static str,
    place: usize,
    byte: u8,
    known: Answer,
}

const DAMAGES: [Damage; 15] = [
    Damage {
        what: "nothing",
        place: 0,
        byte: 0x01,
        known: Ok(true),
    },
    Damage {
        what: "the name",
        place: 5,
        byte: 0x42,
        known: Ok(false),
    },
    Damage {
        what: "a byte of the name",
        place: 5,
        byte: 0x07,
        known: Err((21, 0)),
    },
    Damage {
        what: "the first tag",
        place: 0,
        byte: 0x04,
        known: Err((40, 0)),
    },
    Damage {
        what: "the first length",
        place: 2,
        byte: 0x01,
        known: Err((40, 0)),
    },
    Damage {
        what: "the zone",
        place: 4,
        byte: 0xFB,
        known: Err((20, 0)),
    },
    Damage {
        what: "the point's length",
        place: 8,
        byte: 0x04,
        known: Err((40, 6)),
    },
    Damage {
        what: "the point's zone",
        place: 12,
        byte: 0x08,
        known: Err((31, 6)),
    },
    Damage {
        what: "the kind",
        place: 13,
        byte: 0x05,
        known: Err((20, 6)),
    },
    Damage {
        what: "the kind by one",
        place: 13,
        byte: 0x03,
        known: Ok(false),
    },
    Damage {
        what: "the rule's point",
        place: 20,
        byte: 0x04,
        known: Err((31, 14)),
    },
    Damage {
        what: "the rule's length",
        place: 15,
        byte: 0x01,
        known: Err((40, 14)),
    },
    Damage {
        what: "the seal's length",
        place: 23,
        byte: 0x08,
        known: Err((40, 21)),
    },
    Damage {
        what: "the code",
        place: 24,
        byte: 0x03,
        known: Err((41, 21)),
    },
    Damage {
        what: "the seal",
        place: 32,
        byte: 0x8A,
        known: Ok(false),
    },
];

// The same records sealed under another code. A byte and no family, since it is a known value.
fn resealed(code: u8, seal: u64) -> [u8; 33] {
    let mut image = IMAGE;
    image[24] = code;
    image[25..].copy_from_slice(&seal.to_be_bytes());
    image
}

// Checks an image and prints the verdict as 1 or 0, or the number and offset of its fault.
fn show<F: Family, const N: usize>(
    rt: &impl Print,
    tally: &mut Tally,
    what: &str,
    mut buffer: [u8; N],
    image: &[u8],
    known: Answer,
) -> io::Result<()> {
    let found = check::<Gather<F>>(&mut buffer, image).map_err(|(fault, offset)| (
        fault.number(),
        offset,
    ));
    let verdict = tally.verdict(found == known);
    // One line for both: a verdict is printed at 0.
    let (number, offset) = found.map_or_else(|fault| fault, |passes| (u8::from(passes), 0));
    println!(rt; "image, {what}: {number} at {offset} {verdict}")
}

fn spoil(image: &mut [u8], damage: &Damage) {
    if let Some(byte) = image.get_mut(damage.place) {
        *byte = damage.byte;
    }
}

fn damaged(rt: &impl Print, tally: &mut Tally, damage: &Damage) -> io::Result<()> {
    let mut image = IMAGE;
    spoil(&mut image, damage);
    show::<Division, _>(
        rt,
        tally,
        damage.what,
        buffers::division(),
        &image,
        damage.known,
    )
}

// Images that are too long or too short.
fn cut(rt: &impl Print, tally: &mut Tally) -> io::Result<()> {
    let mut longer = [0; 34];
    longer[..33].copy_from_slice(&IMAGE);
    show::<Division, _>(
        rt,
        tally,
        "a byte more",
        buffers::division(),
        &longer,
        Err((40, 33)),
    )?;
    show::<Division, _>(
        rt,
        tally,
        "a byte less",
        buffers::division(),
        &IMAGE[..32],
        Err((40, 21)),
    )?;
    show::<Division, _>(
        rt,
        tally,
        "no seal field",
        buffers::division(),
        &IMAGE[..21],
        Err((40, 21)),
    )?;
    show::<Division, _>(
        rt,
        tally,
        "one byte",
        buffers::division(),
        &IMAGE[..1],
        Err((40, 0)),
    )?;
    show::<Division, _>(rt, tally, "empty", buffers::division(), &[], Err((40, 0)))
}

// The other families, and buffers that open none.
fn families(rt: &impl Print, tally: &mut Tally) -> io::Result<()> {
    let toeplitz = resealed(0x02, 0x07CA0D120579C6A8);
    let evaluation = resealed(0x03, 0x1502190424061B18);
    show::<Toeplitz, _>(rt, tally, "02", buffers::toeplitz(), &toeplitz, Ok(true))?;
    show::<Evaluation, _>(
        rt,
        tally,
        "03",
        buffers::evaluation(),
        &evaluation,
        Ok(true),
    )?;
    show::<Evaluation, _>(
        rt,
        tally,
        "01 by 03",
        buffers::evaluation(),
        &IMAGE,
        Err((41, 21)),
    )?;
    show::<Division, _>(
        rt,
        tally,
        "a buffer of 15 bytes",
        [0; 15],
        &IMAGE,
        Err((1, 0)),
    )?;
    show::<Evaluation, _>(rt, tally, "the point 0", [0; 16], &IMAGE, Err((2, 0)))?;
    show::<Division, _>(
        rt,
        tally,
        "the polynomial x^64",
        [0; 16],
        &IMAGE,
        Err((3, 0)),
    )
}

// Makes the image of the text.
fn made(rt: &impl Print, tally: &mut Tally) -> io::Result<()> {
    let mut image = [0; 33];
    let length = make::<Gather<Division>>(TEXT, &mut buffers::division(), &mut image);
    let same = length == Ok(33) && image == IMAGE;
    tally.line(rt, "image, made of a text", same)
}

pub fn run(rt: &impl Print, tally: &mut Tally) -> io::Result<()> {
    for damage in &DAMAGES {
        damaged(rt, tally, damage)?;
    }
    cut(rt, tally)?;
    families(rt, tally)?;
    made(rt, tally)
}
