// Why a line, the making of an image, or an input of the program is refused. Each fault has a number.
ghost use Rattle.line_reader.specs.Calls.{column_of_line_fault, number_of_line_fault};
ghost use Rattle.line_reader.specs.Numbers.{number_of_read_fault};
ghost use Rattle.line_reader.specs.InputFaults.{number_of_input_fault, line_and_column_of_input_fault};
ghost use Rattle.line_reader.specs.MakeFaults.{number_of_make_fault, line_and_column_of_make_fault};
ghost use Rattle.hashes.specs.KeyFault.{number_of_key_fault};
ghost use Rattle.register.specs.Faults.{number_of_record_fault};
ghost use Rattle.std.specs.Prelude.{◌≡◌};

use hashes::key_fault::KeyFault;
use register::fault::RecordFault;

// A refusal's number, with the line, from 1, and the column. Plain numbers, as the program prints them and the exported functions pack them.
pub type Refusal = (u8, (usize, usize));

#[derive(Clone, Copy, Debug, PartialEq, Eq)]
pub enum ReadFault {
    // A byte or the line's end does not fit.
    Syntax = 11,
    // What follows a backslash is no letter of an escape.
    Escape = 12,
}

impl ReadFault {
    pub fn number(&self) -> u8
        ensures { result ≡ number_of_read_fault self.now }
    {
        *self as u8
    }
}

// Why the call of a line is refused.
#[derive(Clone, Copy, Debug, PartialEq, Eq)]
pub enum LineFault {
    // The line is not in the grammar: how, and at which column.
    Read(ReadFault, usize),
    // The record that it spells is refused.
    Record(RecordFault),
}

impl LineFault {
    pub fn number(&self) -> u8
        ensures { result ≡ number_of_line_fault self.now }
    {
        // No number at the variants, since each holds a fault that has its own.
        match self {
            LineFault::Read(fault, _) => fault.number(),
            LineFault::Record(fault) => fault.number(),
        }
    }

    // The column; 0 for a record that is refused, since no one byte of its line is at fault.
    pub fn column(&self) -> usize
        ensures { result ≡ column_of_line_fault self.now }
    {
        match self {
            LineFault::Read(_, column) => *column,
            LineFault::Record(_) => 0,
        }
    }
}

// Conversions by hand here and below: a derive's would have no contract, and clauses name the fault that a `?` makes.
impl From<(ReadFault, usize)> for LineFault {
    ghost from_gives = { λ f r. (number_of_line_fault r ≡ number_of_read_fault f.0)
        × (column_of_line_fault r ≡ f.1) };

    fn from((fault, column): (ReadFault, usize)) -> LineFault {
        LineFault::Read(fault, column)
    }
}

impl From<RecordFault> for LineFault {
    ghost from_gives = { λ f r. (number_of_line_fault r ≡ number_of_record_fault f)
        × (column_of_line_fault r ≡ 0) };

    fn from(fault: RecordFault) -> LineFault {
        LineFault::Record(fault)
    }
}

// Why no image of a text is made.
#[derive(Clone, Copy, Debug, PartialEq, Eq)]
pub enum MakeFault {
    // The key buffer does not open.
    Key(KeyFault),
    // A line is refused: how, and which one, from 1.
    Line(LineFault, usize),
    // The image is longer than the output.
    Room,
}

impl MakeFault {
    pub fn number(&self) -> u8
        ensures { result ≡ number_of_make_fault self.now }
    {
        // No number at the variants, since two hold a fault that has its own.
        match self {
            MakeFault::Key(fault) => fault.number(),
            MakeFault::Line(fault, _) => fault.number(),
            MakeFault::Room => 50,
        }
    }

    // The line and the column; plain numbers, so 0 and 0 where no line is at fault.
    pub fn line_and_column(&self) -> (usize, usize)
        ensures { result ≡ line_and_column_of_make_fault self.now }
    {
        match self {
            MakeFault::Line(fault, line) => (*line, fault.column()),
            _ => (0, 0),
        }
    }
}

impl From<KeyFault> for MakeFault {
    ghost from_gives = { λ f r. (number_of_make_fault r ≡ number_of_key_fault f)
        × (line_and_column_of_make_fault r ≡ (0, 0)) };

    fn from(fault: KeyFault) -> MakeFault {
        MakeFault::Key(fault)
    }
}

// Why there is no seal of an input of the program.
#[derive(Clone, Copy, Debug, PartialEq, Eq)]
pub enum InputFault {
    // There is no code byte, or it picks no family.
    Code,
    // The input is too long.
    Length,
    // The key buffer or a line is refused.
    Make(MakeFault),
}

impl InputFault {
    pub fn number(&self) -> u8
        ensures { result ≡ number_of_input_fault self.now }
    {
        // No number at the variants, since one holds a fault that has its own.
        match self {
            InputFault::Code => 4,
            InputFault::Length => 5,
            InputFault::Make(fault) => fault.number(),
        }
    }

    // The line and the column; plain numbers, so 0 and 0 where no line is at fault.
    pub fn line_and_column(&self) -> (usize, usize)
        ensures { result ≡ line_and_column_of_input_fault self.now }
    {
        match self {
            InputFault::Make(fault) => fault.line_and_column(),
            _ => (0, 0),
        }
    }
}

impl From<MakeFault> for InputFault {
    ghost from_gives = { λ f r. (number_of_input_fault r ≡ number_of_make_fault f)
        × (line_and_column_of_input_fault r ≡ line_and_column_of_make_fault f) };

    fn from(fault: MakeFault) -> InputFault {
        InputFault::Make(fault)
    }
}
