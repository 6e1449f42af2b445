// The seal of a whole input of the program: a code byte, a key buffer, and the text of a site.
ghost use Rattle.hashes.specs.Word.{Bytes};
ghost use Rattle.line_reader.specs.AsMade.{InputsAsMade};
ghost use Rattle.line_reader.specs.FamilyCodes.{scheme_of_family};
ghost use Rattle.line_reader.specs.InputFaults.{seal_answer, text_answer};
ghost use Rattle.line_reader.specs.SiteInput.{code_of, scheme_of, seal_by_scheme, input_answer};
ghost use Rattle.line_reader.specs.WorkedInputs.{WorkedInputs};
ghost use Rattle.line_reader.specs.WorkedSums.{WorkedSums};
ghost use Rattle.std.specs.Prelude.{◌≡◌, length, replicate};

use crate::family_code::FamilyCode;
use crate::fault::{InputFault, MakeFault, Refusal};
use crate::make::image_len;
use crate::text::send_text;
use hashes::division::Division;
use hashes::evaluation::Evaluation;
use hashes::family::Family;
use hashes::gather::Gather;
use hashes::key_fault::KeyFault;
use hashes::toeplitz::Toeplitz;
use register::facts::register_facts;
use register::register::PAD_LEN;

// The longest input.
pub const LONGEST_INPUT: usize = 65_536;

// Seals a text that stands behind its key buffer: the length of its image, and the seal. A plain pair here and below, as it is answered to callers.
fn seal_text<F: Family>(rest: &mut [u8]) -> Result<(usize, u64), MakeFault>
    ensures { text_answer result ≡ seal_by_scheme (scheme_of F.meaning) rest.old }
{
    let (buffer, text) = rest
        .split_at_mut_checked(F::key_len() + PAD_LEN)
        .ok_or(KeyFault::Length)?;
    let (length, seal) = send_text::<F>(text, buffer, &mut [])?;
    Ok((image_len(length), seal))
}

// Seals a text behind its key buffer by a family.
fn seal_by_family(family: FamilyCode, rest: &mut [u8]) -> Result<(usize, u64), MakeFault>
    ensures { Bytes rest.old → text_answer result ≡ seal_by_scheme (scheme_of_family family) rest.old }
{
    // What the register promises of messages, for any family.
    register_facts::<Division>();
    // Each arm names the function at its family: one switch for all that is done by family would need a trait with a struct and an `impl` for each.
    match family {
        FamilyCode::Division => seal_text::<Gather<Division>>(rest),
        FamilyCode::Toeplitz => seal_text::<Gather<Toeplitz>>(rest),
        FamilyCode::Evaluation => seal_text::<Gather<Evaluation>>(rest),
    }
}

// The code byte. A function of its own, since its contract hands on that the input holds bytes.
fn code_of(input: &[u8]) -> Option<u8>
    ensures code { result ≡ code_of input.now }
    ensures bytes { Bytes input.now }
{
    input.first().copied()
}

// Seals an input: its length is looked at first, then its code.
fn seal_parts(input: &mut [u8]) -> Result<(usize, u64), InputFault>
    ensures { seal_answer result ≡ input_answer input.old }
{
    if input.len() > LONGEST_INPUT {
        return Err(InputFault::Length);
    }
    let code = code_of(input).ok_or(InputFault::Code)?;
    let family = FamilyCode::try_from(code)?;
    Ok(seal_by_family(family, &mut input[1..])?)
}

// Seals an input, which it leaves zero: the length of the image, and the seal. A refusal answers its number with the line, from 1, and the column.
pub fn seal_input(input: &mut [u8]) -> Result<(usize, u64), Refusal>
    ensures seals { result ≡ input_answer input.old }
    ensures cleared { input.new ≡ replicate (length input.old) 0 }
    ensures as_made { InputsAsMade }
    ensures sums { WorkedSums }
    ensures inputs { WorkedInputs }
{
    // What the register promises, from which the clause on images follows.
    register_facts::<Division>();
    register_facts::<Toeplitz>();
    register_facts::<Evaluation>();
    let sealed = seal_parts(input);
    input.fill(0);
    sealed.map_err(|fault| (fault.number(), fault.line_and_column()))
}
