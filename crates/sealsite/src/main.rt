// Reads a code byte, a key buffer and the text of a site from standard input, and prints the seal,
// or why there is none.
#![tactic(auto)]

ghost use Rattle.std.specs.Prelude.{◌≡◌, length, take, replicate, Some, Ok, Err};
ghost use Rattle.std.specs.Prelude.{IfSome, IfOk, OnOk, MatchResult};
ghost use Rattle.std.specs.Io.{ReadsAtMost};
ghost use Rattle.std.specs.Fmt.InlineText.{inline_text};
ghost use Rattle.std.specs.Io.KnownBytes.{Appends};
ghost use Rattle.line_reader.specs.SiteInput.{input_answer};
ghost use Rattle.sealsite.specs.Input.{ReadsInput};
ghost use Rattle.sealsite.specs.AnswerText.{answer_text, answer_line};

use line_reader::fault::Refusal;
use line_reader::site_input::{LONGEST_INPUT, seal_input};
use std::fmt::InlineText;
use std::io::{Read, Write};
use std::{fmt, io};

// One byte more than the longest input, so that a longer one is seen.
const ROOM: usize = LONGEST_INPUT + 1;

// Fills a buffer from a reader as far as that goes, and answers how far.
#[tactic(auto, using(crate::proofs::Filled::filled_more))]
fn read_input<R: Read>(reader: &mut R, buffer: &mut [u8]) -> io::Result<usize>
    ensures bound { ReadsAtMost result buffer.new }
    ensures reads { ReadsInput (R.remaining reader.old) (R.remaining reader.new) result buffer.new }
{
    let mut len = 0;
    // By hand, since the library's `read_to_end` fills a vector that grows, and leaves key bytes
    // behind in memory that it gave back.
    while len < buffer.len() {
        let more = reader.read(&mut buffer[len..])?;
        if more == 0 {
            break;
        }
        len += more;
    }
    Ok(len)
}

// Seals the bytes that were read into a buffer, and leaves the whole buffer zero.
fn seal_read(
    buffer: &mut [u8],
    read: io::Result<usize>,
) -> io::Result<Result<(usize, u64), Refusal>>
    requires { ReadsAtMost «read» buffer.old }
    ensures seals { MatchResult «read» (λ n. result ≡ Ok (input_answer (take n buffer.old)))
        (λ e. result ≡ Err e) }
    ensures cleared { buffer.new ≡ replicate (length buffer.old) 0 }
{
    let answer = read.map(|len| seal_input(&mut buffer[..len]));
    buffer.fill(0);
    answer
}

// What an input comes to, as it is printed.
#[derive(Clone, Copy, Debug, PartialEq, Eq)]
struct Answer(Result<(usize, u64), Refusal>);

impl fmt::Display for Answer {
    ghost output = { λ answer. Some (answer_text answer.0) };

    #[tactic(auto, using(crate::proofs::SixteenDigits::sixteen_digits))]
    fn fmt<W: fmt::Write>(&self, f: &mut fmt::Formatter<W>) -> fmt::Result {
        match self.0 {
            Ok((length, seal)) => write!(f, "sealed {length} {seal:016X}"),
            Err((number, (line, column))) => {
                write!(f, "refused {number} line {line} column {column}")
            }
        }
    }
}

// Seals all that a reader gives. Where a read fails, that is passed on, and there is no answer.
fn answer_of<R: Read>(reader: &mut R) -> io::Result<Answer>
    ensures { IfOk result (λ answer. IfSome (R.remaining reader.old)
        (λ all. answer.0 ≡ input_answer all)) }
{
    // Fixed memory, which is zeroed: a vector that grows leaves key bytes behind.
    let mut input = [0; ROOM];
    let read = read_input(reader, &mut input);
    Ok(Answer(seal_read(&mut input, read)?))
}

// Room for the longest line: `refused`, a number of three digits, and a line and a column of twenty
// digits each.
const LINE_ROOM: usize = 66;

// A text in memory of its own; None where it has no room. The line of each answer has room.
#[tactic(auto, using(crate::proofs::Written::all_written))]
fn text_of<D: fmt::Display + Drop>(value: D) -> Option<InlineText<LINE_ROOM>>
    ensures { IfSome result (λ text. IfSome (D.output value) (λ bytes. inline_text text ≡ bytes)) }
{
    let mut text = InlineText::new();
    match fmt::Write::write(&mut text, value) {
        Ok(()) => Some(text),
        Err(_) => None,
    }
}

// Writes an answer as one line. The line is handed over whole: of one that is written piece by
// piece, whoever reads the other end may get a part.
fn write_line<W: Write>(writer: &mut W, answer: Answer) -> io::Result<()>
    ensures { OnOk result (Appends (W.contents writer.old) (W.contents writer.new)
        (answer_line answer.0)) }
{
    match text_of(format_args!("{answer}\n")) {
        Some(line) => writer.write_all(line.as_str().as_bytes()),
        None => writeln!(writer, "{answer}"),
    }
}

// Writes the answer to all that a reader gives, as one line.
fn seal_site<R: Read, W: Write>(reader: &mut R, writer: &mut W) -> io::Result<()>
    ensures { OnOk result (IfSome (R.remaining reader.old)
        (λ all. Appends (W.contents writer.old) (W.contents writer.new)
        (answer_line (input_answer all)))) }
{
    let answer = answer_of(reader)?;
    write_line(writer, answer)
}

fn main(rt: HostRuntime) -> io::Result<()> {
    seal_site(&mut rt.stdin(), &mut rt.stdout())
}
