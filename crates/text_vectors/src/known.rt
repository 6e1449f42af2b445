// Bytes with known answers.
use line_reader::fault::Refusal;
use std::io;
use std::io::Print;
use tally::Tally;

// Bytes that are sealed, with the image's length and the seal.
#[derive(Clone, Copy, Debug, PartialEq, Eq)]
pub struct Sealed {
    pub what: &'static str,
    pub bytes: &'static [u8],
    pub length: usize,
    pub seal: u64,
}

// Bytes that are refused, and by what.
#[derive(Clone, Copy, Debug, PartialEq, Eq)]
pub struct Refused {
    pub what: &'static str,
    pub bytes: &'static [u8],
    pub refusal: Refusal,
}

// Prints a line with the refusal that came out, and whether it is the known one; `clean` says that the buffers are as they must be.
pub fn show_refusal(
    rt: &impl Print,
    tally: &mut Tally,
    group: &str,
    known: &Refused,
    refusal: Option<Refusal>,
    clean: bool,
) -> io::Result<()> {
    let what = known.what;
    match refusal {
        Some(found) => {
            let verdict = tally.verdict(found == known.refusal && clean);
            let (number, (line, column)) = found;
            println!(rt; "{group}, {what}: {number} line {line} column {column} {verdict}")
        }
        None => {
            let verdict = tally.verdict(false);
            println!(rt; "{group}, {what}: not refused, {verdict}")
        }
    }
}
