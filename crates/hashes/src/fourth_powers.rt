// Fourth powers modulo x^64 + p, by half bytes: the fourth power of a sum is the sum of the fourth powers.
ghost use Rattle.std.specs.Prelude.{◌≡◌, ℕ, ◌+◌, ◌*◌, ◌^◌, ◌<◌, slice_index};
ghost use Rattle.hashes.specs.Additive.{HalfByteRows};
ghost use Rattle.hashes.specs.Division.{division};
ghost use Rattle.hashes.specs.Frobenius.{frobenius};
ghost use Rattle.hashes.specs.Polynomial.{times_mod};

use crate::polynomial::{by_half_bytes, extend_sums, fill_multiples};

// For each half byte d, d x^64 modulo x^64 + p.
#[derive(Drop)]
struct Carries {
    p: u64,
    words: [u64; 16],
    ghost fits: { p < 2 ^ 64 },
    ghost filled: { (d : ℕ) → d < 16 → slice_index words d ≡ division 64 p d },
}

impl Carries {
    // d x^64 is d times p, since x^64 is p modulo x^64 + p.
    #[tactic(auto, using(crate::specs::Words::division_word))]
    fn new(p: u64) -> Carries
        ensures { result.p ≡ p }
    {
        let mut words = [0; 16];
        fill_multiples(&mut words, p, p);
        Carries { p, words }
    }

    // x^4 times a: the top half byte goes out, and its multiple of x^64 is added.
    #[tactic(auto, using(crate::proofs::Multiples::half_byte_up_64))]
    fn half_byte_up(&self, a: u64) -> u64
        ensures { result ≡ times_mod (2 ^ 64 + self.now.p) (2 ^ 4) a }
    {
        (a << 4) ^ self.words[(a >> 60) as usize]
    }

    // The fourth powers of the half bytes, each times a. Those of 1, x, x^2 and x^3 are the powers of x^4.
    fn row(&self, a: u64) -> [u64; 16]
        ensures { (d : ℕ) → d < 16 → slice_index result d ≡ times_mod (2 ^ 64 + self.now.p) (frobenius (2 ^ 64 + self.now.p) 2 d) a }
    {
        let mut row = [0; 16];
        let mut power = a;
        // As in `fill_multiples`, by another step: to hand that over would take a closure that both
        // have to describe.
        for k in 0..4u32 {
            extend_sums(&mut row, 1 << k, power);
            power = self.half_byte_up(power);
        }
        row
    }
}

// The table of fourth powers. Row j is made from x^(16j), the fourth power of x^(4j); x^4 times its entry at x^3 makes the next row.
pub(crate) fn fourth_powers(p: u64) -> [[u64; 16]; 16]
    ensures { HalfByteRows (frobenius (2 ^ 64 + p) 2) result }
{
    let carries = Carries::new(p);
    let mut rows = [[0; 16]; 16];
    let mut power = 1;
    for row in &mut rows {
        *row = carries.row(power);
        power = carries.half_byte_up(row[8]);
    }
    rows
}

// a raised to the fourth power so many times by a table of fourth powers, which is squared twice as often.
pub(crate) fn repeated_fourth_power(rows: &[[u64; 16]; 16], a: u64, turns: u32) -> u64
    ensures { (p : ℕ) → HalfByteRows (frobenius (2 ^ 64 + p) 2) rows.now → result ≡ frobenius (2 ^ 64 + p) (turns * 2) a }
{
    let mut power = a;
    for _ in 0..turns {
        power = by_half_bytes(rows, power);
    }
    power
}
