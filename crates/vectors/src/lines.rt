// Reads lines with known readings, prints what was read, and compares.
use crate::table::{
    BLANKS, BlankLine, POINTS, PointLine, REFUSED, RULES, RefusedLine, RuleLine, SAMPLES, ZONES,
    ZoneLine,
};
use line_reader::line::Line;
use line_reader::reader::{decode, read_line};
use std::io;
use std::io::Print;
use tally::Tally;

fn zone(rt: &impl Print, tally: &mut Tally, expected: &ZoneLine) -> io::Result<()> {
    let what = expected.line;
    match read_line(what.as_bytes()) {
        Ok(Line::Zone { number, name }) => {
            // Fixed memory, and a length beside it, since `decode` fills bytes of the caller's.
            let mut bytes = [0; 16];
            let len = decode(name, &mut bytes);
            let same = number == expected.number && &bytes[..len] == expected.name;
            let verdict = tally.verdict(same);
            println!(rt; "{what}: zone {number}, a name of {len} bytes, {verdict}")
        }
        _ => tally.line(rt, what, false),
    }
}

fn point(rt: &impl Print, tally: &mut Tally, expected: &PointLine) -> io::Result<()> {
    let what = expected.line;
    match read_line(what.as_bytes()) {
        Ok(Line::Point { number, zone, kind }) => {
            let kind = kind.number();
            let same = number == expected.number && zone == expected.zone && kind == expected.kind;
            let verdict = tally.verdict(same);
            println!(rt; "{what}: point {number}, zone {zone}, kind {kind}, {verdict}")
        }
        _ => tally.line(rt, what, false),
    }
}

fn rule(rt: &impl Print, tally: &mut Tally, expected: &RuleLine) -> io::Result<()> {
    let what = expected.line;
    match read_line(what.as_bytes()) {
        Ok(Line::Rule { zone, point }) => {
            let verdict = tally.verdict(zone == expected.zone && point == expected.point);
            println!(rt; "{what}: zone {zone}, point {point}, {verdict}")
        }
        _ => tally.line(rt, what, false),
    }
}

fn blank(rt: &impl Print, tally: &mut Tally, expected: &BlankLine) -> io::Result<()> {
    let what = expected.what;
    match read_line(expected.line) {
        Ok(Line::Blank) => {
            let verdict = tally.verdict(true);
            println!(rt; "{what}: blank, {verdict}")
        }
        _ => tally.line(rt, what, false),
    }
}

fn refused(rt: &impl Print, tally: &mut Tally, expected: &RefusedLine) -> io::Result<()> {
    let what = expected.what;
    match refusal(expected.line) {
        None => tally.line(rt, what, false),
        Some((number, column)) => {
            let verdict = tally.verdict((number, column) == (expected.number, expected.column));
            println!(rt; "{what}: {number} at column {column}, {verdict}")
        }
    }
}

// The number and the column of the refusal, if the line is refused. The number, not the fault, so that it is compared.
fn refusal(line: &[u8]) -> Option<(u8, usize)> {
    let (fault, column) = read_line(line).err()?;
    Some((fault.number(), column))
}

// Whether every beginning of the line but the empty one is refused by 11 at its own length.
fn breaks_off(line: &[u8]) -> bool {
    (1..line.len()).all(|len| refusal(&line[..len]) == Some((11, len)))
}

fn beginnings(rt: &impl Print, tally: &mut Tally, what: &str) -> io::Result<()> {
    let count = what.len().saturating_sub(1);
    let verdict = tally.verdict(breaks_off(what.as_bytes()));
    println!(rt; "{what}: {count} beginnings, {verdict}")
}

pub fn run(rt: &impl Print, tally: &mut Tally) -> io::Result<()> {
    for expected in &ZONES {
        zone(rt, tally, expected)?;
    }
    for expected in &POINTS {
        point(rt, tally, expected)?;
    }
    for expected in &RULES {
        rule(rt, tally, expected)?;
    }
    for expected in &BLANKS {
        blank(rt, tally, expected)?;
    }
    for expected in &REFUSED {
        refused(rt, tally, expected)?;
    }
    for sample in &SAMPLES {
        beginnings(rt, tally, sample)?;
    }
    Ok(())
}
