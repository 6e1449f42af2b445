// Making the image of a text.
ghost use Rattle.std.specs.Int.{bytes_high_first};
ghost use Rattle.std.specs.Prelude.{◌≡◌, ◌+◌, ◌≤◌, Ok, Err, if◌then◌else◌, length, nat_le, replicate};
ghost use Rattle.line_reader.specs.Making.{TextsPass, made};
ghost use Rattle.line_reader.specs.Sending.{wiped};
ghost use Rattle.register.specs.Book.{longest_message};
ghost use Rattle.register.specs.Fields.{seal_field_length};
ghost use Rattle.register.specs.Image.{seal_field};
ghost use Rattle.register.specs.Records.{bytes_of};
ghost use Rattle.register.specs.Writing.{put};

use crate::fault::{MakeFault, Refusal};
use crate::text::send_text;
use hashes::family::Family;
use register::facts::register_facts;
use register::framing::SEAL_FIELD_LEN;
use register::output::put_bytes;
use register::seal_field::seal_bytes;

// The length of an image by that of its message.
pub(crate) fn image_len(message_len: usize) -> usize
    requires { message_len ≤ longest_message }
    ensures { result ≡ message_len + seal_field_length }
{
    message_len + SEAL_FIELD_LEN
}

// Writes the seal field of a code and a seal behind the message in an output, where there is room for
// it, and answers the length of the image.
fn put_seal(out: &mut [u8], message_len: usize, code: u8, seal: u64) -> Result<usize, MakeFault>
    requires { message_len ≤ longest_message }
    ensures answers { result ≡ (if nat_le (message_len + seal_field_length) (length out.old)
        then Ok (message_len + seal_field_length) else Err MakeFault.Room) }
    ensures writes { out.new ≡ put out.old message_len
        (bytes_of (seal_field code (bytes_high_first 8 seal))) }
{
    if put_bytes(out, message_len, &seal_bytes(code, seal)) {
        Ok(image_len(message_len))
    } else {
        Err(MakeFault::Room)
    }
}

// Writes the image of a text into an output of zeros. After a refusal the output may hold a part of the message.
fn build<F: Family>(text: &[u8], buffer: &mut [u8], out: &mut [u8]) -> Result<usize, MakeFault>
    requires { out.old ≡ replicate (length out.old) 0 }
    ensures makes { wiped result out.new ≡ made F.meaning buffer.old text.now (length out.old) }
    ensures cleared { buffer.new ≡ replicate (length buffer.old) 0 }
{
    // What the register promises of outputs.
    register_facts::<F>();
    let (length, seal) = send_text::<F>(text, buffer, out)?;
    put_seal(out, length, F::code(), seal)
}

// Makes the image of a text by a key buffer, which it leaves zero. Where that can be done it answers how long the image is, and the output has the image in
// front and zeros behind it. Where not, it answers a number, with a line from 1 and a column, and the output is all zeros. Buffer and output stay apart,
// as slices of the caller's.
pub fn make<F: Family>(text: &[u8], buffer: &mut [u8], out: &mut [u8]) -> Result<usize, Refusal>
    ensures makes { (result, out.new) ≡ made F.meaning buffer.old text.now (length out.old) }
    ensures cleared { buffer.new ≡ replicate (length buffer.old) 0 }
    ensures texts { TextsPass F.meaning }
{
    // What the register promises, from which the clause on texts follows.
    register_facts::<F>();
    out.fill(0);
    let made = build::<F>(text, buffer, out);
    // Not in the closure below: where `map_err` does not call it, a proof would know nothing of the output.
    if made.is_err() {
        out.fill(0);
    }
    made.map_err(|fault| (fault.number(), fault.line_and_column()))
}
