// Reading one line, and decoding a name as it is written.
ghost use Rattle.std.specs.Prelude.{◌≡◌, min, ◌++◌, length, take, drop};
ghost use Rattle.line_reader.specs.Exact.{NamesDecoded, ReadingsExact};
ghost use Rattle.line_reader.specs.Reading.{decoded, reading, reading_of};

use crate::cursor::Cursor;
use crate::fault::ReadFault;
use crate::line::Line;

// What a line says, or its fault and the column where it is. Inlined as the stages are: the answer stays in registers too.
#[inline(always)]
pub fn read_line<'a>(line: &'a [u8]) -> Result<Line<'a>, (ReadFault, usize)>
    ensures reads { reading_of result ≡ reading line.now }
    ensures exact { ReadingsExact }
{
    let mut cursor = Cursor::new(line);
    let read = cursor.line();
    let column = line.len() - cursor.len();
    let said = read.map_err(|fault| (fault, column))?;
    Ok(said)
}

// Writes the bytes that a name stands for, as many as there is room for, and answers their number. Into the caller's bytes: there is no heap.
pub fn decode(name: &[u8], bytes: &mut [u8]) -> usize
    ensures count { result ≡ min (length (decoded name.now)) (length bytes.old) }
    ensures writes { bytes.new ≡ take result (decoded name.now) ++ drop result bytes.old }
    ensures exact { NamesDecoded }
{
    let mut cursor = Cursor::new(name);
    for (n, place) in bytes.iter_mut().enumerate() {
        let Ok(Some(byte)) = cursor.character() else {
            return n;
        };
        *place = byte;
    }
    bytes.len()
}
