// Polynomials over GF(2) in words: bit i of a word is the coefficient at x^i. As a modulus, a word w stands for x^64 + w.
ghost use Rattle.std.specs.Prelude.{◌≡◌, ℕ, ◌+◌, ◌*◌, ◌/◌, ◌%◌, ◌^◌, ◌<◌, ◌≤◌, bit_xor, length, slice_index};
ghost use Rattle.std.specs.Int.{IsPowerOfTwo};
ghost use Rattle.hashes.specs.Additive.{Additive, HalfByteRows};
ghost use Rattle.hashes.specs.Laws.{PolynomialLaws};
ghost use Rattle.hashes.specs.Polynomial.{times_mod};

// x times a, modulo x^64 + w: the top bit goes out, and has w added in its place.
fn double(a: u64, w: u64) -> u64
    ensures { result ≡ bit_xor (a * 2 % 2 ^ 64) (a / 2 ^ 63 * w) }
{
    (a << 1) ^ ((a >> 63) * w)
}

// Fills each word with the product of its place and a, modulo x^64 + w. The count of words is a
// power of two, since each turn doubles how many are filled.
pub(crate) fn fill_multiples<const N: usize>(words: &mut [u64; N], a: u64, w: u64)
    requires { IsPowerOfTwo N }
    ensures { (t : ℕ) → t < N → slice_index words.new t ≡ times_mod (2 ^ 64 + w) t a }
{
    words[0] = 0;
    let mut power = a;
    // By exponent: `successors` would hand out the same places and powers, and the words would still be extended at each.
    for k in 0..N.ilog2() {
        extend_sums(words, 1 << k, power);
        power = double(power, w);
    }
}

// Behind the first `half` words, the same words with b added to each. What stands after them stays.
pub(crate) fn extend_sums(words: &mut [u64], half: usize, b: u64)
    requires { half + half ≤ length words.old }
    ensures below { (t : ℕ) → t < half → slice_index words.new t ≡ slice_index words.old t }
    ensures above { (t : ℕ) → t < half → slice_index words.new (half + t) ≡ bit_xor (slice_index words.old t) b }
    ensures rest { (t : ℕ) → half + half ≤ t → slice_index words.new t ≡ slice_index words.old t }
    ensures len { length words.new ≡ length words.old }
{
    words.copy_within(..half, half);
    for word in &mut words[half..2 * half] {
        *word ^= b;
    }
}

// The value at v of an additive function, by a table with a row for each half byte of v.
#[tactic(auto, using(crate::proofs::Sums::half_byte_step, crate::proofs::Sums::higher_half_bytes))]
pub(crate) fn by_half_bytes(rows: &[[u64; 16]; 16], v: u64) -> u64
    ensures { (f : ℕ → ℕ) → Additive f → HalfByteRows f rows.now → result ≡ f v }
{
    let mut sum = 0;
    let mut rest = v;
    for row in rows {
        sum ^= row[(rest % 16) as usize];
        rest >>= 4;
    }
    sum
}

// The laws of polynomials over GF(2), which the contracts of this crate rest on.
#[tactic(auto, using(crate::proofs::PolynomialLaws::polynomial_laws))]
pub fn polynomial_laws()
    ensures { PolynomialLaws }
{}
