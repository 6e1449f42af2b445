// What is left of a line, and the stages that go over it as far as it fits. On a refusal it stands at the column.
// Each stage is inlined, so that what is left stays in registers. By calls it went through memory, and a line took a third longer.
ghost use Rattle.line_reader.specs.Reading.{told, held, read_word, read_number, read_escape, read_character, read_name, read_kind, past_remark, read_comment, read_zone, read_point, read_rule, read_form, read_end, read_whole};
ghost use Rattle.std.specs.Prelude.{◌≡◌, [], ◌∷◌, length};

use crate::bytes::{feed, leads, plain, unescaped};
use crate::fault::ReadFault;
use crate::kind::Kind;
use crate::line::Line;
use std::marker::Model;

#[derive(Drop)]
pub(crate) struct Cursor<'a> {
    rest: &'a [u8],
}

// A clause sees what is left.
impl<'a> Model for Cursor<'a> {
    ghost use Rattle.std.specs.Prelude.{ℕ, List};

    ghost Value = { List ℕ };

    ghost view = { λ cursor. cursor.rest.now };
}

impl<'a> Cursor<'a> {
    pub(crate) fn new(line: &'a [u8]) -> Cursor<'a>
        ensures { result ≡ line.now }
    {
        Cursor { rest: line }
    }

    // How much is left.
    pub(crate) fn len(&self) -> usize
        ensures { result ≡ length self.now }
    {
        self.rest.len()
    }

    // The byte `b`.
    #[inline(always)]
    fn byte(&mut self, b: u8) -> Result<(), ReadFault>
        ensures { read_word (b ∷ []) self.old ≡ (self.new, result) }
    {
        self.rest = self.rest.strip_prefix(&[b]).ok_or(ReadFault::Syntax)?;
        Ok(())
    }

    // The word `word`.
    #[inline(always)]
    fn word(&mut self, word: &[u8]) -> Result<(), ReadFault>
        ensures { read_word word.now self.old ≡ (self.new, result) }
    {
        for b in word {
            self.byte(*b)?;
        }
        Ok(())
    }

    // A number: a byte that may lead one, and five digits at most.
    #[inline(always)]
    fn number(&mut self) -> Result<u32, ReadFault>
        ensures { read_number self.old ≡ (self.new, result) }
    {
        if !matches!(self.rest, [b, ..] if leads(*b)) {
            return Err(ReadFault::Syntax);
        }
        let mut value: u32 = 0;
        for _ in 0..5u32 {
            match self.rest {
                [b, rest @ ..] if b.is_ascii_digit() => {
                    value = 10 * value + u32::from(*b - b'0');
                    self.rest = rest;
                }
                _ => break,
            }
        }
        Ok(value)
    }

    // The letter of an escape, after its backslash, as the byte that the two give.
    #[inline(always)]
    fn escape(&mut self) -> Result<u8, ReadFault>
        ensures { read_escape self.old ≡ (self.new, result) }
    {
        let (letter, after) = self.rest.split_first().ok_or(ReadFault::Escape)?;
        let byte = unescaped(char::from(*letter))?;
        self.rest = after;
        Ok(byte)
    }

    // One character of a name, as its byte. None where the name ends.
    #[inline(always)]
    pub(crate) fn character(&mut self) -> Result<Option<u8>, ReadFault>
        ensures { read_character self.old ≡ (self.new, result) }
    {
        match self.rest {
            [b'\\', rest @ ..] => {
                self.rest = rest;
                let byte = self.escape()?;
                Ok(Some(byte))
            }
            [b, rest @ ..] if plain(*b) => {
                self.rest = rest;
                Ok(Some(*b))
            }
            _ => Ok(None),
        }
    }

    // A name as it is written.
    #[inline(always)]
    fn name(&mut self) -> Result<&'a [u8], ReadFault>
        ensures { read_name self.old ≡ (self.new, held result) }
    {
        let start = self.rest;
        while self.character()?.is_some() {}
        Ok(&start[..start.len() - self.rest.len()])
    }

    // The word of a kind.
    #[inline(always)]
    fn kind(&mut self) -> Result<Kind, ReadFault>
        ensures { read_kind self.old ≡ (self.new, result) }
    {
        let kind = Kind::likely(self.rest).ok_or(ReadFault::Syntax)?;
        self.word(kind.spelled())?;
        Ok(kind)
    }

    // Bytes up to a line feed or the end.
    #[inline(always)]
    fn remark(&mut self)
        ensures { past_remark self.old ≡ self.new }
    {
        let end = self.rest.iter().position(|b| feed(*b));
        self.rest = &self.rest[end.unwrap_or(self.rest.len())..];
    }

    // A comment.
    #[inline(always)]
    fn comment(&mut self) -> Result<Line<'a>, ReadFault>
        ensures { read_comment self.old ≡ (self.new, told result) }
    {
        self.word(b"#")?;
        self.remark();
        Ok(Line::Blank)
    }

    // A line `zone N "NAME"`.
    #[inline(always)]
    fn zone(&mut self) -> Result<Line<'a>, ReadFault>
        ensures { read_zone self.old ≡ (self.new, told result) }
    {
        self.word(b"zone ")?;
        let number = self.number()?;
        self.word(b" \"")?;
        let name = self.name()?;
        self.word(b"\"")?;
        Ok(Line::Zone { number, name })
    }

    // A line `point N Z KIND`.
    #[inline(always)]
    fn point(&mut self) -> Result<Line<'a>, ReadFault>
        ensures { read_point self.old ≡ (self.new, told result) }
    {
        self.word(b"point ")?;
        let number = self.number()?;
        self.word(b" ")?;
        let zone = self.number()?;
        self.word(b" ")?;
        let kind = self.kind()?;
        Ok(Line::Point { number, zone, kind })
    }

    // A line `rule Z N`.
    #[inline(always)]
    fn rule(&mut self) -> Result<Line<'a>, ReadFault>
        ensures { read_rule self.old ≡ (self.new, told result) }
    {
        self.word(b"rule ")?;
        let zone = self.number()?;
        self.word(b" ")?;
        let point = self.number()?;
        Ok(Line::Rule { zone, point })
    }

    // An empty line, or a line of the form that its first byte tells.
    #[inline(always)]
    fn form(&mut self) -> Result<Line<'a>, ReadFault>
        ensures { read_form self.old ≡ (self.new, told result) }
    {
        let line = match self.rest {
            [] => Line::Blank,
            [b'#', ..] => self.comment()?,
            [b'z', ..] => self.zone()?,
            [b'p', ..] => self.point()?,
            [b'r', ..] => self.rule()?,
            _ => return Err(ReadFault::Syntax),
        };
        Ok(line)
    }

    // The end of the line.
    #[inline(always)]
    fn end(&self) -> Result<(), ReadFault>
        ensures { read_end self.now ≡ (self.now, result) }
    {
        if self.rest.is_empty() {
            Ok(())
        } else {
            Err(ReadFault::Syntax)
        }
    }

    // A line of the grammar, to its end.
    #[inline(always)]
    pub(crate) fn line(&mut self) -> Result<Line<'a>, ReadFault>
        ensures { read_whole self.old ≡ (self.new, told result) }
    {
        let line = self.form()?;
        self.end()?;
        Ok(line)
    }
}
