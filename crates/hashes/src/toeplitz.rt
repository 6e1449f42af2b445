// The Toeplitz hash: the bitwise sum of the states of a shift register at the message's ones.
ghost use Rattle.std.specs.Prelude.{◌≡◌, ◌%◌, bit_and, count_ones};
ghost use Rattle.hashes.specs.Toeplitz.{ToeplitzFacts, ToeplitzState, lfsr, toeplitz_family, toeplitz_hash, toeplitz_next, toeplitz_state};
ghost use Rattle.hashes.specs.ToeplitzFamily.{toeplitz_lawful};

use crate::family::Family;
use crate::irreducible::is_irreducible;
use crate::key_fault::KeyFault;
use crate::word::two_words;
use std::marker::Model;

// The family's code, and how many bytes a key has.
const CODE: u8 = 2;

const KEY_LEN: usize = 16;

// Between two bytes: the taps, the register, and the sum of the states chosen so far.
#[derive(Drop)]
pub struct Toeplitz {
    taps: u64,
    register: u64,
    total: u64,
}

impl Model for Toeplitz {
    ghost Value = { ToeplitzState };

    ghost view = { λ t. toeplitz_state t.taps t.register t.total };
}

impl Toeplitz {
    // No byte has been taken in yet.
    fn new(taps: u64, register: u64) -> Toeplitz
        ensures { result ≡ toeplitz_state taps register 0 }
    {
        Toeplitz {
            taps,
            register,
            total: 0,
        }
    }

    // The bit that comes in: the parity of the tapped bits.
    fn feedback(&self) -> u64
        ensures { result ≡ count_ones (bit_and self.now.register self.now.taps) % 2 }
    {
        u64::from((self.register & self.taps).count_ones() % 2)
    }

    // The register's next word: all bits move down, and the feedback comes in at the top.
    #[tactic(auto, using(crate::specs::ToeplitzSteps::step_word))]
    fn step(&mut self)
        ensures { self.new ≡ toeplitz_state self.old.taps (lfsr 64 self.old.taps self.old.register) self.old.total }
    {
        self.register = (self.register >> 1) | (self.feedback() << 63);
    }

    // Takes in one byte, its top bit first: a bit that is one adds the register to the sum.
    #[tactic(auto, using(crate::specs::ToeplitzSteps::after_first_bit, crate::specs::ToeplitzSteps::after_no_bits))]
    fn take_byte(&mut self, byte: u8)
        ensures { self.new ≡ toeplitz_next self.old byte }
    {
        // By place, since a byte has no iterator over its bits.
        for i in (0..8u32).rev() {
            // A product, since an `if` takes almost twice as long.
            self.total ^= u64::from((byte >> i) & 1) * self.register;
            self.step();
        }
    }
}

impl Family for Toeplitz {
    ghost meaning = { toeplitz_family };

    ghost state = { λ t. t };

    ghost lawful = { toeplitz_lawful };

    fn code() -> u8 {
        CODE
    }

    fn key_len() -> usize {
        KEY_LEN
    }

    fn open(key: &[u8]) -> Result<Toeplitz, KeyFault> {
        let (taps, register) = two_words(key).ok_or(KeyFault::Length)?;
        if register == 0 {
            return Err(KeyFault::Zero);
        }
        if !is_irreducible(taps) {
            return Err(KeyFault::Reducible);
        }
        Ok(Toeplitz::new(taps, register))
    }

    fn absorb(&mut self, part: &[u8]) {
        for b in part {
            self.take_byte(*b);
        }
    }

    // The closing one chooses the register.
    fn digest(&mut self) -> u64 {
        self.total ^ self.register
    }
}

// The Toeplitz hash of a whole message, for any taps and any first state.
#[tactic(auto, using(crate::specs::ToeplitzFamily::toeplitz_run))]
pub fn toeplitz_hash(taps: u64, register: u64, message: &[u8]) -> u64
    ensures { result ≡ toeplitz_hash taps register message.now }
{
    let mut running = Toeplitz::new(taps, register);
    running.absorb(message);
    running.digest()
}

// The family's hash is the formula, and its keys are the irreducible polynomials with a state other than zero.
#[tactic(auto, using(crate::specs::ToeplitzFamily::toeplitz_facts))]
pub fn toeplitz_facts()
    ensures { ToeplitzFacts }
{}
