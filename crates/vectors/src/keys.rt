// Words with known answers of the key check.
use hashes::irreducible::is_irreducible;
use std::io;
use std::io::Print;
use tally::Tally;

// Checks one word, and prints the polynomial x^64 + word and what it is.
fn check(rt: &impl Print, tally: &mut Tally, word: u64, known: bool) -> io::Result<()> {
    let irreducible = is_irreducible(word);
    let verdict = tally.verdict(irreducible == known);
    let kind = if irreducible {
        "irreducible"
    } else {
        "reducible"
    };
    println!(rt; "x^64 + {word:016X}: {kind} {verdict}")
}

// Polynomials from public tables.
pub fn irreducible(rt: &impl Print, tally: &mut Tally) -> io::Result<()> {
    check(rt, tally, 0x1B, true)?;
    check(rt, tally, 0x1D, true)?;
    check(rt, tally, 0xB000000000000001, true)?;
    check(rt, tally, 0xAD93D23594C935A9, true)
}

pub fn reducible(rt: &impl Print, tally: &mut Tally) -> io::Result<()> {
    // The square of x^32 + x + 1.
    check(rt, tally, 0x5, false)?;
    // Two different irreducible factors of degree 32, so that x^(2^64) = x holds: x^32 + AF and x^32 + 8D.
    check(rt, tally, 0x00000022000050EB, false)?;
    // x^31 + x^3 + 1 and a factor of degree 33.
    check(rt, tally, 0xB0CB4CFFED2257B7, false)?;
    // x + 1 and x^63 + x + 1.
    check(rt, tally, 0x8000000000000005, false)?;
    // Factors of degree 1, 15 and 17: the polynomial of a published checksum is no key.
    check(rt, tally, 0x42F0E1EBA9EA3693, false)?;
    check(rt, tally, 0, false)?;
    check(rt, tally, 1, false)?;
    check(rt, tally, 0xFFFFFFFFFFFFFFFF, false)
}
