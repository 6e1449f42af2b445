// The calls that can be made on a register. A line of text is one of them, and stands for another.
ghost use Rattle.line_reader.specs.Calls.{LinesExact, line_input, line_reply, sentence_input};
ghost use Rattle.line_reader.specs.Reading.{decoded, said};
ghost use Rattle.register.specs.Inputs.{input_after, input_output, input_reply};
ghost use Rattle.register.specs.Records.{Record};
ghost use Rattle.register.specs.Values.{view};
ghost use Rattle.register.specs.View.{Keeps, after, reply, reply_of};
ghost use Rattle.register.specs.Writing.{output_after};
ghost use Rattle.std.specs.Prelude.{◌≡◌};

use crate::fault::LineFault;
use crate::line::Line;
use crate::reader::{decode, read_line};
use hashes::family::Family;
use register::fault::RecordFault;
use register::limits::LONGEST_NAME;
use register::record::{SiteRecord, point_record, rule_record};
use register::register::Register;

// Each case is a public call of the register, so what is promised of lists of calls is promised of these.
#[derive(Clone, Copy, Debug, PartialEq, Eq)]
pub enum Call<'a> {
    // The bytes of one line.
    Line(&'a [u8]),
    // A zone and its name.
    Zone { number: u32, name: &'a [u8] },
    // A point of a kind, in a zone. A byte and no enum, as in a record.
    Point { number: u32, zone: u32, kind: u8 },
    // The point that goes off where the zone has an alarm.
    Rule { zone: u32, point: u32 },
}

// Room for a name that is too long by one byte.
const NAME_ROOM: usize = LONGEST_NAME + 1;

// As in the register, each function says what it answers, leaves and keeps: that is of a call, before and after it. Register and output stay two
// parameters, since each clause speaks of one of them.

// Declares a zone by a name as it is written. A name that has no room here is too long for the book.
fn named_zone<F: Family>(
    register: &mut Register<F>,
    number: u32,
    name: &[u8],
    out: &mut [u8],
) -> Result<usize, RecordFault>
    ensures answers { reply_of result ≡ reply F.meaning (view F.meaning F.state register.old) (Record.zone number (decoded name.now)) }
    ensures leaves { view F.meaning F.state register.new ≡ after F.meaning (view F.meaning F.state register.old) (Record.zone number (decoded name.now)) }
    ensures writes { out.new ≡ output_after F.meaning (view F.meaning F.state register.old) (Record.zone number (decoded name.now)) out.old }
    ensures keeps { Keeps result register.old register.new }
{
    // So that a longer name is refused as such. Fixed memory, and a length beside it, since there
    // is no heap.
    let mut bytes = [0; NAME_ROOM];
    let n = decode(name, &mut bytes);
    register.apply_into(
        SiteRecord::Zone {
            number,
            name: &bytes[..n],
        },
        out,
    )
}

// Makes the call that a line as read spells.
fn make_call<F: Family>(
    register: &mut Register<F>,
    read: Line,
    out: &mut [u8],
) -> Result<usize, RecordFault>
    ensures answers { reply_of result ≡ input_reply F.meaning (view F.meaning F.state register.old) (sentence_input (said read.entry)) }
    ensures leaves { view F.meaning F.state register.new ≡ input_after F.meaning (view F.meaning F.state register.old) (sentence_input (said read.entry)) }
    ensures writes { out.new ≡ input_output F.meaning (view F.meaning F.state register.old) (sentence_input (said read.entry)) out.old }
    ensures keeps { Keeps result register.old register.new }
{
    match read {
        Line::Blank => Ok(register.len()),
        Line::Zone { number, name } => named_zone(register, number, name, out),
        Line::Point { number, zone, kind } => {
            register.apply_into(point_record(number, zone, kind.number()), out)
        }
        Line::Rule { zone, point } => register.apply_into(rule_record(zone, point), out),
    }
}

// Makes the call that a line spells, and writes the field of a record taken into an output, after the message, where there is room.
pub(crate) fn line_into<F: Family>(
    register: &mut Register<F>,
    line: &[u8],
    out: &mut [u8],
) -> Result<usize, LineFault>
    ensures answers { line_reply result ≡ input_reply F.meaning (view F.meaning F.state register.old) (line_input line.now) }
    ensures leaves { view F.meaning F.state register.new ≡ input_after F.meaning (view F.meaning F.state register.old) (line_input line.now) }
    ensures writes { out.new ≡ input_output F.meaning (view F.meaning F.state register.old) (line_input line.now) out.old }
    ensures keeps { Keeps result register.old register.new }
{
    let read = read_line(line)?;
    Ok(make_call(register, read, out)?)
}

// Makes the call that a line spells. The answer is the length of the message after it; a blank line or a comment adds nothing.
pub fn line<F: Family>(register: &mut Register<F>, line: &[u8]) -> Result<usize, LineFault>
    ensures answers { line_reply result ≡ input_reply F.meaning (view F.meaning F.state register.old) (line_input line.now) }
    ensures leaves { view F.meaning F.state register.new ≡ input_after F.meaning (view F.meaning F.state register.old) (line_input line.now) }
    ensures keeps { Keeps result register.old register.new }
    ensures exact { LinesExact }
{
    line_into(register, line, &mut [])
}
