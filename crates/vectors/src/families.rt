// Messages with known hashes, by each family, straight and through the gather, cut in two at every place.
ghost use Rattle.hashes.specs.KeyFault.{hashing, opened};
ghost use Rattle.std.specs.Prelude.{◌≡◌, ◌++◌, Decides, Ok};

use crate::buffers::{POLYNOMIAL, bytes_of};
use crate::division::count_up;
use hashes::division::Division;
use hashes::evaluation::Evaluation;
use hashes::family::Family;
use hashes::gather::Gather;
use hashes::key_fault::KeyFault;
use hashes::toeplitz::Toeplitz;
use std::io;
use std::io::Print;
use tally::Tally;

// The field of a zone 7 with the name A.
const FIELD: [u8; 6] = [0x01, 0x00, 0x03, 0x00, 0x07, 0x41];

// A message and its hash under a key.
#[derive(Clone, Copy, Debug, PartialEq, Eq)]
struct Hashed {
    what: &'static str,
    key: &'static [u8],
    message: &'static [u8],
    hash: u64,
}

const BY_DIVISION: [Hashed; 2] = [
    Hashed {
        what: "01, 1B, empty",
        key: &[0, 0, 0, 0, 0, 0, 0, 0x1B],
        message: &[],
        hash: 0x1B,
    },
    Hashed {
        what: "01, 1B, 01",
        key: &[0, 0, 0, 0, 0, 0, 0, 0x1B],
        message: &[1],
        hash: 0x1B1B,
    },
];

const BY_TOEPLITZ: [Hashed; 2] = [
    Hashed {
        what: "02, 1B and 1, empty",
        key: &[0, 0, 0, 0, 0, 0, 0, 0x1B, 0, 0, 0, 0, 0, 0, 0, 1],
        message: &[],
        hash: 1,
    },
    Hashed {
        what: "02, 1B and 1, 80",
        key: &[0, 0, 0, 0, 0, 0, 0, 0x1B, 0, 0, 0, 0, 0, 0, 0, 1],
        message: &[0x80],
        hash: 0x0100000000000001,
    },
];

const BY_EVALUATION: [Hashed; 3] = [
    Hashed {
        what: "03, 1, empty",
        key: &[0, 0, 0, 0, 0, 0, 0, 1],
        message: &[],
        hash: 0x8000000000000001,
    },
    Hashed {
        what: "03, 1, 010003000741",
        key: &[0, 0, 0, 0, 0, 0, 0, 1],
        message: &FIELD,
        hash: 0x0100030007418001,
    },
    Hashed {
        what: "03, 2, 010003000741",
        key: &[0, 0, 0, 0, 0, 0, 0, 2],
        message: &FIELD,
        hash: 0x020006000E830004,
    },
];

// A polynomial with taps all over the word, and a state and point to go with it.
const DENSE: u64 = 0xAD93D23594C935A9;

const STATE: u64 = 0x0123456789ABCDEF;

// The hash of a message that comes in two parts.
fn hash_parts<F: Family>(key: &[u8], first: &[u8], second: &[u8]) -> Result<u64, KeyFault>
    ensures { opened (λ h. h) result ≡ hashing F.meaning key.now (first.now ++ second.now) }
{
    let mut running = F::open(key)?;
    running.absorb(first);
    running.absorb(second);
    Ok(running.digest())
}

// Whether the hash is the known one wherever the message is cut in two.
fn at_every_cut<F: Family>(key: &[u8], message: &[u8], known: u64) -> bool
    ensures { Decides result (hashing F.meaning key.now message.now ≡ Ok known) }
{
    (0..message.len() + 1).all(|cut| {
        let (first, second) = message.split_at(cut);
        hash_parts::<F>(key, first, second) == Ok(known)
    })
}

// Hashes a message whole, and compares at every cut, straight and through the gather.
fn run<F: Family>(
    rt: &impl Print,
    tally: &mut Tally,
    what: &str,
    key: &[u8],
    message: &[u8],
    known: u64,
) -> io::Result<()> {
    match hash_parts::<F>(key, message, &[]) {
        Ok(hash) => {
            let same = hash == known
                && at_every_cut::<F>(key, message, known)
                && at_every_cut::<Gather<F>>(key, message, known);
            let verdict = tally.verdict(same);
            println!(rt; "{what}: {hash:016X} {verdict}")
        }
        Err(_) => tally.line(rt, what, false),
    }
}

fn run_all<F: Family>(rt: &impl Print, tally: &mut Tally, rows: &[Hashed]) -> io::Result<()> {
    for row in rows {
        run::<F>(rt, tally, row.what, row.key, row.message, row.hash)?;
    }
    Ok(())
}

// Short messages worked by hand.
pub fn worked(rt: &impl Print, tally: &mut Tally) -> io::Result<()> {
    run_all::<Division>(rt, tally, &BY_DIVISION)?;
    run_all::<Toeplitz>(rt, tally, &BY_TOEPLITZ)?;
    run_all::<Evaluation>(rt, tally, &BY_EVALUATION)
}

// A message of 150 bytes, more than twice what the gather holds back.
pub fn longer(rt: &impl Print, tally: &mut Tally) -> io::Result<()> {
    let mut message = [0u8; 150];
    count_up(&mut message);
    run::<Division>(
        rt,
        tally,
        "01, 150 bytes",
        &DENSE.to_be_bytes(),
        &message,
        0x295E0F78BE38803A,
    )?;
    run::<Toeplitz>(
        rt,
        tally,
        "02, 150 bytes",
        &bytes_of::<16>(&[DENSE, STATE]),
        &message,
        0x8AB461CBF599A2A0,
    )?;
    run::<Evaluation>(
        rt,
        tally,
        "03, 150 bytes",
        &STATE.to_be_bytes(),
        &message,
        0xEFFF1ADA698F16B5,
    )
}

// A string that is no key, and the number of its refusal. The number, not the fault, so that it is compared.
fn refuse<F: Family>(
    rt: &impl Print,
    tally: &mut Tally,
    what: &str,
    key: &[u8],
    known: u8,
) -> io::Result<()> {
    match hash_parts::<Gather<F>>(key, &[], &[]) {
        Ok(_) => tally.line(rt, what, false),
        Err(fault) => {
            let number = fault.number();
            let verdict = tally.verdict(number == known);
            println!(rt; "{what}: refused {number} {verdict}")
        }
    }
}

pub fn refusals(rt: &impl Print, tally: &mut Tally) -> io::Result<()> {
    refuse::<Division>(rt, tally, "01, 7 bytes", &[0; 7], 1)?;
    refuse::<Division>(rt, tally, "01, 5", &5u64.to_be_bytes(), 3)?;
    refuse::<Toeplitz>(rt, tally, "02, 8 bytes", &POLYNOMIAL.to_be_bytes(), 1)?;
    refuse::<Toeplitz>(rt, tally, "02, 0 and 0", &[0; 16], 2)?;
    refuse::<Toeplitz>(rt, tally, "02, 5 and 1", &bytes_of::<16>(&[5, 1]), 3)?;
    refuse::<Evaluation>(rt, tally, "03, 9 bytes", &[0; 9], 1)?;
    refuse::<Evaluation>(rt, tally, "03, 0", &[0; 8], 2)
}
