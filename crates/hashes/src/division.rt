// The division hash: the message's polynomial times x^64, modulo the polynomial x^64 + p.
ghost use Rattle.std.specs.Prelude.{◌≡◌, ℕ, ◌/◌, ◌^◌, ◌<◌, bit_xor, fold, slice_index};
ghost use Rattle.hashes.specs.Division.{DivisionFacts, division, division_family, division_hash, division_state, division_step};
ghost use Rattle.hashes.specs.DivisionFamily.{division_lawful};

use crate::family::Family;
use crate::irreducible::is_irreducible;
use crate::key_fault::KeyFault;
use crate::polynomial::fill_multiples;
use crate::word::word_of;

// The family's code, and how many bytes a key has.
const CODE: u8 = 1;

const KEY_LEN: usize = 8;

// For each byte t, t x^64 modulo x^64 + p.
#[derive(Drop)]
struct Table {
    p: u64,
    words: [u64; 256],
    ghost fits: { p < 2 ^ 64 },
    ghost filled: { (t : ℕ) → t < 256 → slice_index words t ≡ division 64 p t },
}

impl Table {
    // t x^64 is t times p, since x^64 is p modulo x^64 + p.
    #[tactic(auto, using(crate::specs::Words::division_word))]
    fn new(p: u64) -> Table
        ensures { result.p ≡ p }
    {
        let mut words = [0u64; 256];
        fill_multiples(&mut words, p, p);
        Table { p, words }
    }

    // What a byte adds to a remainder: the entry at the remainder's top byte and the new one.
    fn entry(&self, residue: u64, byte: u8) -> u64
        ensures { result ≡ division 64 self.now.p (bit_xor (residue / 2 ^ 56) byte) }
    {
        self.words[(residue >> 56) as usize ^ usize::from(byte)]
    }

    // The remainder moved on by one byte, with one lookup. The other bytes are moved up by one.
    #[tactic(auto, using(crate::specs::DivisionSteps::division_lookup))]
    fn step(&self, residue: u64, byte: u8) -> u64
        ensures { result ≡ division_step 64 self.now.p residue byte }
    {
        (residue << 8) ^ self.entry(residue, byte)
    }

    // The remainder moved on by each byte of a part.
    fn absorb(&self, residue: u64, part: &[u8]) -> u64
        ensures { result ≡ fold (division_step 64 self.now.p) residue part.now }
    {
        part.iter()
            .fold(residue, |residue, b| self.step(residue, *b))
    }
}

#[derive(Drop)]
pub struct Division {
    table: Table,
    residue: u64,
}

impl Family for Division {
    ghost meaning = { division_family };

    ghost state = { λ d. division_state d.table.p d.residue };

    ghost lawful = { division_lawful };

    fn code() -> u8 {
        CODE
    }

    fn key_len() -> usize {
        KEY_LEN
    }

    fn open(key: &[u8]) -> Result<Division, KeyFault> {
        let p = word_of(key).ok_or(KeyFault::Length)?;
        if !is_irreducible(p) {
            return Err(KeyFault::Reducible);
        }
        Ok(Division {
            table: Table::new(p),
            residue: p,
        })
    }

    #[tactic(auto, using(crate::specs::DivisionFamily::division_absorbed))]
    fn absorb(&mut self, part: &[u8]) {
        self.residue = self.table.absorb(self.residue, part);
    }

    fn digest(&mut self) -> u64 {
        self.residue
    }
}

// The division hash of a whole message, for any word p, a key or not. The remainder of the leading one alone is p.
#[tactic(auto, using(crate::specs::DivisionSteps::division_run, crate::specs::Bytes::typed_bytes))]
pub fn division_hash(p: u64, message: &[u8]) -> u64
    ensures { result ≡ division_hash p message.now }
{
    Table::new(p).absorb(p, message)
}

// The family's hash is the formula, and its keys are the irreducible polynomials.
#[tactic(auto, using(crate::specs::DivisionFamily::division_facts))]
pub fn division_facts()
    ensures { DivisionFacts }
{}
