// The evaluation hash: the message's words as the coefficients of a polynomial, evaluated at the key's point.
ghost use Rattle.std.specs.Prelude.{◌≡◌, Decides, ℕ, ◌*◌, ◌%◌, ◌^◌, ◌<◌, ◌+◌, List, [], ◌∷◌, ◌++◌, length, slice_index, slice_index_or};
ghost use Rattle.std.specs.Int.{bytes_high_first};
ghost use Rattle.std.specs.Int.Digits.{number_from_digits_after};
ghost use Rattle.hashes.specs.Evaluation.{EvaluationFacts, EvaluationState, evaluation_family, evaluation_hash, evaluation_state, lower_halves, modulus, padded, with_word};
ghost use Rattle.hashes.specs.Family.{absorbed};
ghost use Rattle.hashes.specs.Polynomial.{times_mod};
ghost use Rattle.hashes.specs.Word.{word};
ghost use Rattle.hashes.specs.EvaluationFamily.{evaluation_lawful};

use crate::family::Family;
use crate::key_fault::KeyFault;
use crate::polynomial::fill_multiples;
use crate::word::word_of;
use std::marker::Model;

// The family's code, and how many bytes a key has.
const CODE: u8 = 3;

const KEY_LEN: usize = 8;

// The low word of the modulus x^64 + x^4 + x^3 + x + 1.
const LOW_WORD: u64 = 0x1B;

// The multiples of a point by the lower half of each byte: row j has d x^(8j) times the point at place d. The same rows serve the upper halves, so the
// table is half as large: it is made anew for each key, and moved when a hash is.
#[derive(Drop)]
struct Multiples {
    point: u64,
    rows: [[u64; 16]; 8],
    ghost filled: { (j d : ℕ) → j < 8 → d < 16 → slice_index (slice_index_or rows j []) d ≡ times_mod modulus (d * 2 ^ (8 * j)) point },
}

impl Multiples {
    // The lower half of each byte of v, where it stands, times the point: one lookup for each.
    fn times_lower_halves(&self, v: u64) -> u64
        ensures { result ≡ times_mod modulus (lower_halves 8 v) self.now.point }
    {
        let mut sum = 0;
        let mut rest = v;
        for row in &self.rows {
            sum ^= row[(rest % 16) as usize];
            rest >>= 8;
        }
        sum
    }

    // v times the point. The upper half bytes are multiplied as if they were the lower ones, and
    // moved up at the end. With both sums in one loop, its lookups would not fit into the registers
    // that a call need not save.
    #[tactic(auto, using(crate::proofs::EvaluationSteps::halves_added))]
    fn times(&self, v: u64) -> u64
        ensures { result ≡ times_mod modulus v self.now.point }
    {
        let high = self.times_lower_halves(v >> 4);
        let low = self.times_lower_halves(v);
        half_byte_up(high) ^ low
    }

    // The value times the point, and the next word.
    fn with_word(&self, value: u64, word: u64) -> u64
        ensures { result ≡ with_word self.now.point value word }
    {
        self.times(value) ^ word
    }
}

// Fills a row with the products of the half bytes and a.
fn fill_row(row: &mut [u64; 16], a: u64)
    ensures { (d : ℕ) → d < 16 → slice_index row.new d ≡ times_mod modulus d a }
{
    fill_multiples(row, a, LOW_WORD);
}

// d times the low word of the modulus at place d: what four bits that go out at the top come in as.
const FOLDED: [u64; 16] = [
    0x00, 0x1B, 0x36, 0x2D, 0x6C, 0x77, 0x5A, 0x41, 0xD8, 0xC3, 0xEE, 0xF5, 0xB4, 0xAF, 0x82, 0x99,
];

// x^4 times a.
#[tactic(auto, using(crate::proofs::EvaluationSteps::half_byte_folded))]
fn half_byte_up(a: u64) -> u64
    ensures { result ≡ times_mod modulus 16 a }
{
    (a << 4) ^ FOLDED[(a >> 60) as usize]
}

// x^8 times a.
#[tactic(auto, using(crate::proofs::EvaluationSteps::half_byte_twice))]
fn byte_up(a: u64) -> u64
    ensures { result ≡ times_mod modulus 256 a }
{
    half_byte_up(half_byte_up(a))
}

// What finishes a word: 80, and then 00.
const PADDING: [u8; 8] = [0x80, 0, 0, 0, 0, 0, 0, 0];

// The bytes of a word that is under way, fewer than eight, as the low bytes of `word`; what stands above them does not count. No array:
// bytes stored one by one cannot be read back as a word before all the stores are done.
#[derive(Drop)]
struct Pending {
    word: u64,
    len: usize,
}

// Clauses see the bytes.
impl Model for Pending {
    ghost Value = { List ℕ };

    ghost view = { λ p. bytes_high_first p.len p.word };

    ghost invariant = { λ p. p.len < 8 };
}

impl Pending {
    fn new() -> Pending
        ensures { result ≡ [] }
    {
        Pending { word: 0, len: 0 }
    }

    #[tactic(auto, using(crate::proofs::PendingBytes::length_bytes))]
    fn is_empty(&self) -> bool
        ensures { Decides result (self.now ≡ []) }
    {
        self.len == 0
    }

    // How many bytes finish the word.
    #[tactic(auto, using(crate::proofs::PendingBytes::length_bytes))]
    fn room(&self) -> usize
        ensures { result + length self.now ≡ 8 }
    {
        8 - self.len
    }

    fn push(&mut self, byte: u8)
        requires { length self.old < 7 }
        ensures { self.new ≡ self.old ++ (byte ∷ []) }
    {
        self.word = with_byte(self.word, byte);
        self.len += 1;
    }

    // Byte by byte, so that an empty part, the usual case behind whole words, costs one comparison.
    fn extend(&mut self, part: &[u8])
        requires { length self.old + length part.now < 8 }
        ensures { self.new ≡ self.old ++ part.now }
    {
        for byte in part {
            self.push(*byte);
        }
    }

    // The word that a part finishes.
    fn finished(&self, part: &[u8]) -> u64
        requires { length self.now + length part.now ≡ 8 }
        ensures { result ≡ word (self.now ++ part.now) }
    {
        with_bytes(self.word, part)
    }

    fn clear(&mut self)
        ensures { self.new ≡ [] }
    {
        self.len = 0;
    }
}

// A word with a byte put in from below, which pushes the top one out.
#[tactic(auto, using(crate::proofs::PendingBytes::byte_below))]
fn with_byte(word: u64, byte: u8) -> u64
    ensures { result ≡ (word * 256 + byte) % 2 ^ 64 }
{
    (word << 8) | u64::from(byte)
}

// The same with bytes, one after the other.
#[tactic(auto, using(crate::proofs::PendingBytes::byte_more))]
fn with_bytes(word: u64, bytes: &[u8]) -> u64
    ensures { result ≡ number_from_digits_after 256 word bytes.now % 2 ^ 64 }
{
    let mut word = word;
    for byte in bytes {
        word = with_byte(word, *byte);
    }
    word
}

#[derive(Drop)]
pub struct Evaluation {
    multiples: Multiples,
    value: u64,
    pending: Pending,
}

// Clauses see the state between two bytes.
impl Model for Evaluation {
    ghost Value = { EvaluationState };

    ghost view = { λ e. evaluation_state e.multiples.point e.value e.pending };

    ghost invariant = { λ e. length e.pending < 8 };
}

impl Evaluation {
    // No byte has been taken in yet. Any point will do. Each row has the multiples of a power times the point, and the next row those of x^8 times as
    // much. They are filled here and not in a function of `Multiples`, which would copy the table once more.
    fn new(point: u64) -> Evaluation
        ensures { result ≡ evaluation_state point 1 [] }
    {
        let mut rows = [[0; 16]; 8];
        let mut power = point;
        for row in &mut rows {
            fill_row(row, power);
            power = byte_up(power);
        }
        Evaluation {
            multiples: Multiples { point, rows },
            value: 1,
            pending: Pending::new(),
        }
    }

    // Takes in a part: bytes until one finishes the word that is under way, and then whole words.
    // If the loop went on behind a finished word, each call would save registers for that, also one
    // with a byte alone.
    fn take_part(&mut self, part: &[u8])
        ensures { self.new ≡ absorbed evaluation_family self.old part.now }
    {
        if self.pending.is_empty() {
            self.take_words(part);
            return;
        }
        let mut rest = part;
        while let Some((byte, after)) = rest.split_first() {
            if self.pending.room() == 1 {
                let word = self.pending.finished(&[*byte]);
                self.value = self.multiples.with_word(self.value, word);
                self.pending.clear();
                self.take_words(after);
                return;
            }
            self.pending.push(*byte);
            rest = after;
        }
    }

    // Takes in whole words, and the bytes after them, where no byte is pending.
    fn take_words(&mut self, part: &[u8])
        requires { self.old.pending ≡ [] }
        ensures { self.new ≡ absorbed evaluation_family self.old part.now }
    {
        let (words, rest) = part.as_chunks::<8>();
        for bytes in words {
            self.take_word(bytes);
        }
        self.pending.extend(rest);
    }

    // Takes in a whole word, where no byte is pending.
    #[tactic(auto, using(crate::proofs::EvaluationSteps::word_taken, crate::specs::Bytes::word8))]
    fn take_word(&mut self, bytes: &[u8; 8])
        requires { self.old.pending ≡ [] }
        ensures moves { self.new ≡ absorbed evaluation_family self.old bytes.now }
        ensures whole { self.new.pending ≡ [] }
    {
        self.value = self
            .multiples
            .with_word(self.value, u64::from_be_bytes(*bytes));
    }

    // The last word: the bytes pending, 80, and then 00.
    #[tactic(auto, using(crate::proofs::PendingBytes::padding))]
    fn last_word(&self) -> u64
        ensures { result ≡ word (padded self.now.pending) }
    {
        self.pending.finished(&PADDING[..self.pending.room()])
    }
}

impl Family for Evaluation {
    ghost meaning = { evaluation_family };

    ghost state = { λ e. e };

    ghost lawful = { evaluation_lawful };

    fn code() -> u8 {
        CODE
    }

    fn key_len() -> usize {
        KEY_LEN
    }

    fn open(key: &[u8]) -> Result<Evaluation, KeyFault> {
        let point = word_of(key).ok_or(KeyFault::Length)?;
        if point == 0 {
            return Err(KeyFault::Zero);
        }
        Ok(Evaluation::new(point))
    }

    fn absorb(&mut self, part: &[u8]) {
        self.take_part(part);
    }

    fn digest(&mut self) -> u64 {
        let value = self.multiples.with_word(self.value, self.last_word());
        self.multiples.times(value)
    }
}

// The evaluation hash of a whole message, at any point.
#[tactic(auto, using(crate::specs::EvaluationFamily::evaluation_whole, crate::specs::Bytes::typed_bytes))]
pub fn evaluation_hash(point: u64, message: &[u8]) -> u64
    ensures { result ≡ evaluation_hash point message.now }
{
    let mut running = Evaluation::new(point);
    running.take_part(message);
    running.digest()
}

// The family's hash is the formula, and its keys are the points other than zero.
#[tactic(auto, using(crate::specs::EvaluationFamily::evaluation_facts))]
pub fn evaluation_facts()
    ensures { EvaluationFacts }
{}
