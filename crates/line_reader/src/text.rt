// Texts: their lines one after the other, sent to a register.
ghost use Rattle.std.specs.Iterator.{at_most};
ghost use Rattle.std.specs.List.{position_or_len};
ghost use Rattle.std.specs.Option.{option_map};
ghost use Rattle.std.specs.Prelude.{◌≡◌, ◌≤◌, ◌==◌, IfOk, length, replicate};
ghost use Rattle.line_reader.specs.Sending.{SendsLines, SendsText};
ghost use Rattle.line_reader.specs.Texts.{TakesLine};
ghost use Rattle.register.specs.Book.{longest_message};
ghost use Rattle.register.specs.Values.{view};

use crate::bytes::feed;
use crate::calls::line_into;
use crate::fault::MakeFault;
use hashes::family::Family;
use register::facts::register_facts;
use register::register::Register;
use std::simd::prelude::*;

// How many bytes stand before the first line feed; all of them if there is none. Most lines are
// shorter than sixteen bytes, so as many are compared at once. One after another, they made an
// image by Toeplitz a twentieth slower.
fn line_len(text: &[u8]) -> usize
    ensures { result ≡ position_or_len (λ b. b == 10) text.now }
{
    if text.len() >= 16 {
        let feeds = u8x16::from_slice(text)
            .simd_eq(u8x16::splat(b'\n'))
            .to_bitmask();
        if feeds != 0 {
            return feeds.trailing_zeros() as usize;
        }
    }
    text.iter().position(|b| feed(*b)).unwrap_or(text.len())
}

// Goes through a text line by line. Not `split_inclusive`: in a generic function the check cannot
// state a `for` over that.
#[derive(Drop)]
struct Lines<'a> {
    rest: &'a [u8],
}

impl<'a> Lines<'a> {
    fn new(text: &'a [u8]) -> Lines<'a>
        ensures { result.rest.now ≡ text.now }
    {
        Lines { rest: text }
    }
}

impl<'a> Iterator for Lines<'a> {
    type Item = &'a [u8];

    ghost next_gives = { λ old line new.
        TakesLine old.rest.now (option_map (λ l. l.now) line) new.rest.now };

    ghost remaining = { λ lines. at_most (length lines.rest.now) };

    // The next line, without its line feed; None where no byte is left.
    fn next(&mut self) -> Option<&'a [u8]> {
        if self.rest.is_empty() {
            return None;
        }
        let (line, after) = self.rest.split_at(line_len(self.rest));
        // Past the line feed, if there is one.
        self.rest = after.get(1..).unwrap_or(&[]);
        Some(line)
    }
}

// Sends the lines of a text in order to a new register, and writes the fields of their records into
// an output of zeros. A refusal comes with the number of its line, from 1.
fn send_lines<F: Family>(
    register: &mut Register<F>,
    text: &[u8],
    out: &mut [u8],
) -> Result<(), MakeFault>
    ensures { SendsLines F.meaning (view F.meaning F.state register.old) text.now result
        (view F.meaning F.state register.new) out.old out.new }
{
    for (i, line) in Lines::new(text).enumerate() {
        line_into(register, line, out).map_err(|fault| MakeFault::Line(fault, i + 1))?;
    }
    Ok(())
}

// Sends a text to a register that a key buffer opens, which it leaves zero, and writes the fields
// of its records into an output of zeros. The answer is the length of the message, and the seal.
pub(crate) fn send_text<F: Family>(
    text: &[u8],
    buffer: &mut [u8],
    out: &mut [u8],
) -> Result<(usize, u64), MakeFault>
    ensures sends { SendsText F.meaning buffer.old text.now result out.old out.new }
    ensures short { IfOk result (λ a. a.0 ≤ longest_message) }
    ensures cleared { buffer.new ≡ replicate (length buffer.old) 0 }
{
    // What the register promises of its calls.
    register_facts::<F>();
    let mut register = Register::<F>::open(buffer)?;
    send_lines(&mut register, text, out)?;
    Ok((register.len(), register.close()))
}
