// Sites sealed by calls, two at a time, by each family through the gather: every answer and both seals.
use crate::buffers;
use hashes::division::Division;
use hashes::evaluation::Evaluation;
use hashes::family::Family;
use hashes::gather::Gather;
use hashes::toeplitz::Toeplitz;
use line_reader::calls::Call;
use line_reader::fault::LineFault;
use line_reader::handover::handover;
use std::io;
use std::io::Print;
use tally::Tally;

// A zone with a point and a rule, by lines, with lines that are refused between them.
const BY_LINES: [Call; 7] = [
    Call::Line(b"# the hall"),
    Call::Line(b"zone 7 \"A\""),
    Call::Line(b"zone 7 \"A\\q\""),
    Call::Line(b"point 3 7 heat"),
    Call::Line(b"point 3 7 heat"),
    Call::Line(b"rule 7 3"),
    Call::Line(b""),
];

// What a call answers: the message's length, or a number and a column. The number is compared, not the fault.
type Answer = Result<usize, (u8, usize)>;

// Beside the calls and not with them, since sealing takes the calls and the places for their answers as slices of their own.
const LINE_ANSWERS: [Answer; 7] = [
    Ok(0),
    Ok(6),
    Err((12, 10)),
    Ok(14),
    Err((30, 0)),
    Ok(21),
    Ok(21),
];

// The same records by record calls, with a name for the zone.
fn by_records(name: &[u8]) -> [Call<'_>; 7] {
    [
        Call::Zone {
            number: 251,
            name: b"A",
        },
        Call::Zone { number: 7, name },
        Call::Zone {
            number: 8,
            name: b"",
        },
        Call::Point {
            number: 3,
            zone: 7,
            kind: 2,
        },
        Call::Rule { zone: 7, point: 4 },
        Call::Rule { zone: 7, point: 3 },
        Call::Point {
            number: 4,
            zone: 7,
            kind: 5,
        },
    ]
}

// What these calls answer, beside them for the same reason.
const RECORD_ANSWERS: [Answer; 7] = [
    Err((20, 0)),
    Ok(6),
    Err((21, 0)),
    Ok(14),
    Err((31, 0)),
    Ok(21),
    Err((20, 0)),
];

// An answer by its numbers.
fn by_numbers(answer: &Result<usize, LineFault>) -> Answer {
    answer.map_err(|fault| (fault.number(), fault.column()))
}

fn as_known(answers: &[Result<usize, LineFault>], known: &[Answer]) -> bool {
    answers.iter().map(by_numbers).eq(known.iter().copied())
}

// Seals the site by lines and another by the same key buffer, and compares all answers and both seals.
fn compare<F: Family, const N: usize>(
    rt: &impl Print,
    tally: &mut Tally,
    what: &str,
    buffer: [u8; N],
    calls: &[Call],
    known: (u64, u64),
) -> io::Result<()> {
    let mut buffer1 = buffer;
    let mut buffer2 = buffer;
    let mut answers: [Result<usize, LineFault>; 7] = [Ok(0); 7];
    let mut answers2: [Result<usize, LineFault>; 7] = [Ok(0); 7];
    let sealed = handover::<Gather<F>>(
        &mut buffer1,
        &BY_LINES,
        &mut answers,
        &mut buffer2,
        calls,
        &mut answers2,
    );
    match sealed {
        (Ok(seal), Ok(seal2)) => {
            let same = as_known(&answers, &LINE_ANSWERS)
                && as_known(&answers2, &RECORD_ANSWERS)
                && (seal, seal2) == known;
            let verdict = tally.verdict(same);
            println!(rt; "{what}: {seal:016X} {seal2:016X} {verdict}")
        }
        _ => tally.line(rt, what, false),
    }
}

// By one family the same site, and then one with another name.
fn pair<F: Family, const N: usize>(
    rt: &impl Print,
    tally: &mut Tally,
    labels: (&str, &str),
    buffer: [u8; N],
    seal: u64,
    other: u64,
) -> io::Result<()> {
    compare::<F, _>(rt, tally, labels.0, buffer, &by_records(b"A"), (seal, seal))?;
    compare::<F, _>(
        rt,
        tally,
        labels.1,
        buffer,
        &by_records(b"B"),
        (seal, other),
    )
}

pub fn run(rt: &impl Print, tally: &mut Tally) -> io::Result<()> {
    pair::<Division, _>(
        rt,
        tally,
        ("01, the same site", "01, another name"),
        buffers::division(),
        0x30B8AD8E2051568B,
        0xFFB8AD8E205156A6,
    )?;
    pair::<Toeplitz, _>(
        rt,
        tally,
        ("02, the same site", "02, another name"),
        buffers::toeplitz(),
        0x07CA0D120579C6A8,
        0x07CA0D12057FC6A8,
    )?;
    pair::<Evaluation, _>(
        rt,
        tally,
        ("03, the same site", "03, another name"),
        buffers::evaluation(),
        0x1502190424061B18,
        0x15021904241E1B18,
    )
}
