// What one byte means in a text: its line feed, the front of a number, a byte of a name, the letter of an escape.
ghost use Rattle.line_reader.specs.Grammar.{leads, plain, unescaped};
ghost use Rattle.std.specs.Prelude.{◌≡◌, ◌==◌};

use crate::fault::ReadFault;

// Whether the byte ends a line.
pub(crate) fn feed(b: u8) -> bool
    ensures { result ≡ (b == 10) }
{
    b == b'\n'
}

// Whether a number may begin with the byte.
pub(crate) fn leads(b: u8) -> bool
    ensures { result ≡ leads b }
{
    matches!(b, b'1'..=b'9')
}

// Whether the byte stands for itself in a name.
pub(crate) fn plain(b: u8) -> bool
    ensures { result ≡ plain b }
{
    matches!(b, b' '..=b'~') && !matches!(b, b'"' | b'\\')
}

// The byte that a backslash and this letter give.
pub(crate) fn unescaped(letter: char) -> Result<u8, ReadFault>
    ensures { result ≡ unescaped letter }
{
    match letter {
        '"' => Ok(b'"'),
        '\\' => Ok(b'\\'),
        'n' => Ok(b'\n'),
        _ => Err(ReadFault::Escape),
    }
}
