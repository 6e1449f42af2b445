// The libraries behind functions on numbers and byte strings that other languages can call. The benchmark is built on them.
// Other languages can hand over any number, so codes and flags are numbers here, and no enum or `bool`; an answer is one number, since C has no
// `Result`. Each buffer is an argument of its own, and a function that zeroes one says so itself.
#![tactic(auto)]

ghost use Rattle.std.specs.Prelude.{◌≡◌, ◌+◌, ◌^◌, ◌<◌, length, replicate, if◌then◌else◌};
ghost use Rattle.exports.specs.Packed.{by_family, hash_or_zero, packed_line_and_column, made_by_code, no_image, packed, packed_length, packed_seal, packed_verdict, refusal_number, seal_after};
ghost use Rattle.hashes.specs.Irreducible.{irreducible_by_trial};
ghost use Rattle.hashes.specs.KeyFault.{family_opening, hashing, opened};
ghost use Rattle.line_reader.specs.SiteInput.{input_answer};
ghost use Rattle.register.specs.Check.{checked, faulted};

#[cfg(test)]
mod tests;

use hashes::division::Division;
use hashes::evaluation::Evaluation;
use hashes::family::Family;
use hashes::gather::Gather;
use hashes::irreducible::is_irreducible;
use hashes::key_fault::KeyFault;
use hashes::toeplitz::Toeplitz;
use line_reader::family_code::FamilyCode;
use line_reader::fault::{InputFault, Refusal};
use line_reader::make::make;
use line_reader::site_input::seal_input;
use register::check::check;
use register::output::put_bytes;

// 1 where x^64 + p is irreducible, else 0.
#[unsafe(no_mangle)]
pub extern "C" fn waq_irreducible(p: u64) -> u8
    ensures { result ≡ (if irreducible_by_trial (2 ^ 64 + p) then 1 else 0) }
{
    u8::from(is_irreducible(p))
}

fn open_number<F: Family>(key: &[u8]) -> u8
    ensures { result ≡ refusal_number (family_opening F.meaning key.now) }
{
    F::open(key).map_or_else(|fault| fault.number(), |_| 0)
}

// The same straight or through the gather. The choice stands here and below, since each arm names a function at a type.
fn open_either<F: Family>(gathered: bool, key: &[u8]) -> u8
    ensures { result ≡ refusal_number (family_opening F.meaning key.now) }
{
    if gathered {
        open_number::<Gather<F>>(key)
    } else {
        open_number::<F>(key)
    }
}

// 0 for a key of the family with this code, else the number by which it is refused; 4 where there is no such family.
#[unsafe(no_mangle)]
pub extern "C" fn waq_open(code: u8, gathered: u8, key: &[u8]) -> u8
    ensures { result ≡ by_family code (λ M. refusal_number (family_opening M key.now)) 4 }
{
    // Each arm here and below names a function at its family. One switch for all would need a trait
    // with a struct and an `impl` for each of the functions.
    match FamilyCode::try_from(code) {
        Ok(FamilyCode::Division) => open_either::<Division>(gathered != 0, key),
        Ok(FamilyCode::Toeplitz) => open_either::<Toeplitz>(gathered != 0, key),
        Ok(FamilyCode::Evaluation) => open_either::<Evaluation>(gathered != 0, key),
        Err(fault) => fault.number(),
    }
}

// The hash of a message that is handed over in parts, or all at once where the length of a part is 0.
fn hash_parts<F: Family>(key: &[u8], message: &[u8], part: usize) -> Result<u64, KeyFault>
    ensures { opened (λ h. h) result ≡ hashing F.meaning key.now message.now }
{
    let mut hash = F::open(key)?;
    let size = if part == 0 {
        message.len().max(1)
    } else {
        part
    };
    for piece in message.chunks(size) {
        hash.absorb(piece);
    }
    Ok(hash.digest())
}

// The same straight or through the gather; 0 where the key is none.
fn hash_either<F: Family>(gathered: bool, key: &[u8], message: &[u8], part: usize) -> u64
    ensures { result ≡ hash_or_zero (hashing F.meaning key.now message.now) }
{
    let hash = if gathered {
        hash_parts::<Gather<F>>(key, message, part)
    } else {
        hash_parts::<F>(key, message, part)
    };
    hash.unwrap_or(0)
}

// The hash of a message by the family with this code; 0 where the key is none, or there is no such family.
#[unsafe(no_mangle)]
pub extern "C" fn waq_hash(code: u8, gathered: u8, key: &[u8], message: &[u8], part: usize) -> u64
    ensures { result ≡ by_family code (λ M. hash_or_zero (hashing M key.now message.now)) 0 }
{
    // A switch at each function, as in `waq_open`.
    match FamilyCode::try_from(code) {
        Ok(FamilyCode::Division) => hash_either::<Division>(gathered != 0, key, message, part),
        Ok(FamilyCode::Toeplitz) => hash_either::<Toeplitz>(gathered != 0, key, message, part),
        Ok(FamilyCode::Evaluation) => hash_either::<Evaluation>(gathered != 0, key, message, part),
        Err(_) => 0,
    }
}

// A line and a column in 48 bits.
fn line_and_column_bits(place: (usize, usize)) -> u64
    ensures value { result ≡ packed_line_and_column place }
    ensures low { result < 2 ^ 48 }
{
    let (line, column) = place;
    let line = line.min(0xFF_FFFF) as u64;
    let column = column.min(0xFF_FFFF) as u64;
    line * 0x100_0000 + column
}

fn refusal_bits(number: u8, place: u64) -> u64
    requires { place < 2 ^ 48 }
    ensures { result ≡ packed number place }
{
    0x8000_0000_0000_0000 + u64::from(number) * 0x1_0000_0000_0000 + place
}

fn length_bits(answer: Result<usize, Refusal>) -> u64
    ensures { result ≡ packed_length answer }
{
    answer.map_or_else(
        |(number, place)| refusal_bits(number, line_and_column_bits(place)),
        |n| n as u64,
    )
}

// What there is to answer for a code without a family: refusal 4, and the buffers zeroed.
fn no_family(buffer: &mut [u8], out: &mut [u8]) -> Result<usize, Refusal>
    ensures answers { (result, out.new) ≡ no_image (length out.old) }
    ensures cleared { buffer.new ≡ replicate (length buffer.old) 0 }
{
    buffer.fill(0);
    out.fill(0);
    // No line is at fault.
    Err((InputFault::Code.number(), (0, 0)))
}

// Makes the image of a text by the family with this code.
fn make_by_code(code: u8, text: &[u8], buffer: &mut [u8], out: &mut [u8]) -> Result<usize, Refusal>
    ensures answers { (result, out.new) ≡ made_by_code code buffer.old text.now (length out.old) }
    ensures cleared { buffer.new ≡ replicate (length buffer.old) 0 }
{
    // A switch at each function, as in `waq_open`.
    match FamilyCode::try_from(code) {
        Ok(FamilyCode::Division) => make::<Gather<Division>>(text, buffer, out),
        Ok(FamilyCode::Toeplitz) => make::<Gather<Toeplitz>>(text, buffer, out),
        Ok(FamilyCode::Evaluation) => make::<Gather<Evaluation>>(text, buffer, out),
        Err(_) => no_family(buffer, out),
    }
}

// Makes the image of a text: its length, or a refusal.
#[unsafe(no_mangle)]
pub extern "C" fn waq_make(code: u8, text: &[u8], buffer: &mut [u8], out: &mut [u8]) -> u64
    ensures answers { result ≡ packed_length (made_by_code code buffer.old text.now (length out.old)).0 }
    ensures writes { out.new ≡ (made_by_code code buffer.old text.now (length out.old)).1 }
    ensures cleared { buffer.new ≡ replicate (length buffer.old) 0 }
{
    length_bits(make_by_code(code, text, buffer, out))
}

// The check of an image, its verdict or its refusal as one number.
fn check_bits<F: Family>(buffer: &mut [u8], image: &[u8]) -> u64
    ensures answers { result ≡ packed_verdict (checked F.meaning buffer.old image.now) }
    ensures cleared { buffer.new ≡ replicate (length buffer.old) 0 }
{
    check::<F>(buffer, image).map_or_else(
        |(fault, offset)| refusal_bits(fault.number(), offset.min(0xFFFF_FFFF_FFFF) as u64),
        u64::from,
    )
}

// Checks an image: 1 or 0, or a refusal.
#[unsafe(no_mangle)]
pub extern "C" fn waq_check(code: u8, buffer: &mut [u8], image: &[u8]) -> u64
    ensures answers { result ≡ packed_verdict (by_family code (λ M. checked M buffer.old image.now) (faulted 4 0)) }
    ensures cleared { buffer.new ≡ replicate (length buffer.old) 0 }
{
    // A switch at each function, as in `waq_open`.
    match FamilyCode::try_from(code) {
        Ok(FamilyCode::Division) => check_bits::<Gather<Division>>(buffer, image),
        Ok(FamilyCode::Toeplitz) => check_bits::<Gather<Toeplitz>>(buffer, image),
        Ok(FamilyCode::Evaluation) => check_bits::<Gather<Evaluation>>(buffer, image),
        Err(fault) => {
            buffer.fill(0);
            refusal_bits(fault.number(), 0)
        }
    }
}

// The program's answer to a whole input, which is zeroed: the image's length, with the seal in eight bytes where there are so many, or a refusal.
#[unsafe(no_mangle)]
pub extern "C" fn waq_seal(input: &mut [u8], seal: &mut [u8]) -> u64
    ensures answers { result ≡ packed_seal (input_answer input.old) }
    ensures writes { seal.new ≡ seal_after (input_answer input.old) seal.old }
    ensures cleared { input.new ≡ replicate (length input.old) 0 }
{
    // No `map`: where its closure is not called, a proof knows nothing of what it would have written.
    match seal_input(input) {
        Ok((length, word)) => {
            put_bytes(seal, 0, &word.to_be_bytes());
            length as u64
        }
        Err(refusal) => length_bits(Err(refusal)),
    }
}
