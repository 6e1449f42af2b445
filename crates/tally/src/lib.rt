// Known answers compared with what came out: whether each is as known, and a count of all and of those that differ. The handle that prints is
// handed over at each call, as is usual, and not kept.
#![tactic(auto)]

ghost use Rattle.std.specs.Prelude.{◌≡◌, Some, nat_eq};
ghost use Rattle.tally.specs.Counted.{counted, verdict_of};
ghost use Rattle.tally.specs.Printed.{line_text, tally_text, verdict_text, word_line_text};

#[cfg(test)]
mod tests;

use std::io::Print;
use std::{fmt, io};

// Whether an answer is as known.
#[derive(Clone, Copy, Debug, PartialEq, Eq)]
pub enum Verdict {
    Same,
    Differs,
}

impl fmt::Display for Verdict {
    ghost output = { λ verdict. Some (verdict_text verdict) };

    fn fmt<W: fmt::Write>(&self, f: &mut fmt::Formatter<W>) -> fmt::Result {
        f.write_str(match self {
            Verdict::Same => "ok",
            Verdict::Differs => "differs",
        })
    }
}

// The line that is printed of an answer, with no more to say than whether it is as known.
#[derive(Clone, Copy)]
struct Line<'a> {
    what: &'a str,
    verdict: Verdict,
}

impl fmt::Display for Line<'_> {
    ghost output = { λ line. Some (line_text line.what.now line.verdict) };

    fn fmt<W: fmt::Write>(&self, f: &mut fmt::Formatter<W>) -> fmt::Result {
        write!(f, "{}: {}", self.what, self.verdict)
    }
}

// The line that is printed of a word that came out.
#[derive(Clone, Copy)]
struct WordLine<'a> {
    what: &'a str,
    word: u64,
    verdict: Verdict,
}

impl fmt::Display for WordLine<'_> {
    ghost output = { λ line. Some (word_line_text line.what.now line.word line.verdict) };

    fn fmt<W: fmt::Write>(&self, f: &mut fmt::Formatter<W>) -> fmt::Result {
        write!(f, "{}: {:016X} {}", self.what, self.word, self.verdict)
    }
}

// How many answers were compared, and how many differ from what is known.
#[derive(Clone, Copy, Debug, PartialEq, Eq)]
pub struct Tally {
    pub lines: u64,
    pub differ: u64,
}

impl fmt::Display for Tally {
    ghost output = { λ tally. Some (tally_text tally) };

    fn fmt<W: fmt::Write>(&self, f: &mut fmt::Formatter<W>) -> fmt::Result {
        write!(f, "{} lines, {} differ", self.lines, self.differ)
    }
}

impl Tally {
    // Nothing has been compared yet.
    pub fn new() -> Tally
        ensures lines { result.lines ≡ 0 }
        ensures differ { result.differ ≡ 0 }
    {
        Tally {
            lines: 0,
            differ: 0,
        }
    }

    // Counts an answer.
    pub fn verdict(&mut self, same: bool) -> Verdict
        ensures verdict { result ≡ verdict_of same }
        ensures counts { self.new ≡ counted self.old same }
    {
        self.lines = self.lines.wrapping_add(1);
        if same {
            Verdict::Same
        } else {
            self.differ = self.differ.wrapping_add(1);
            Verdict::Differs
        }
    }

    // Counts an answer, and prints it with no more to say than whether it is as known.
    pub fn line(&mut self, rt: &impl Print, what: &str, same: bool) -> io::Result<()>
        ensures counts { self.new ≡ counted self.old same }
    {
        let line = self.counted_line(what, same);
        rt.println(line)
    }

    // Counts a word that came out, and prints it and whether it is the known one.
    pub fn word(&mut self, rt: &impl Print, what: &str, word: u64, known: u64) -> io::Result<()>
        ensures counts { self.new ≡ counted self.old (nat_eq word known) }
    {
        let line = self.counted_word(what, word, known);
        rt.println(line)
    }

    // Counts an answer, for the line that is printed of it.
    fn counted_line<'a>(&mut self, what: &'a str, same: bool) -> Line<'a>
        ensures counts { self.new ≡ counted self.old same }
        ensures what { result.what.now ≡ what.now }
        ensures verdict { result.verdict ≡ verdict_of same }
    {
        let verdict = self.verdict(same);
        Line { what, verdict }
    }

    // Counts a word that came out, for the line that is printed of it.
    fn counted_word<'a>(&mut self, what: &'a str, word: u64, known: u64) -> WordLine<'a>
        ensures counts { self.new ≡ counted self.old (nat_eq word known) }
        ensures what { result.what.now ≡ what.now }
        ensures word { result.word ≡ word }
        ensures verdict { result.verdict ≡ verdict_of (nat_eq word known) }
    {
        let verdict = self.verdict(word == known);
        WordLine {
            what,
            word,
            verdict,
        }
    }
}
