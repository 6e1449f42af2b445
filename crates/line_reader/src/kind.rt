// The kinds of point. Each has a number and a word.
ghost use Rattle.line_reader.specs.Numbers.{number_of_kind};
ghost use Rattle.line_reader.specs.Grammar.{spelling};
ghost use Rattle.line_reader.specs.Reading.{likely};
ghost use Rattle.std.specs.Prelude.{◌≡◌};

#[derive(Clone, Copy, Debug, PartialEq, Eq)]
pub enum Kind {
    Smoke = 1,
    Heat = 2,
    Call = 3,
    Sounder = 4,
}

impl Kind {
    pub fn number(&self) -> u8
        ensures { result ≡ number_of_kind self.now }
    {
        *self as u8
    }

    // How a kind is written.
    pub(crate) fn spelled(self) -> &'static [u8]
        ensures { result.now ≡ spelling self }
    {
        match self {
            Kind::Smoke => b"smoke",
            Kind::Heat => b"heat",
            Kind::Call => b"call",
            Kind::Sounder => b"sounder",
        }
    }

    // The only kind whose word may stand at the front of `text`, if there is one.
    pub(crate) fn likely(text: &[u8]) -> Option<Kind>
        ensures { result ≡ likely text.now }
    {
        match text {
            [b'h', ..] => Some(Kind::Heat),
            [b'c', ..] => Some(Kind::Call),
            [b's', b'o', ..] => Some(Kind::Sounder),
            [b's', ..] => Some(Kind::Smoke),
            _ => None,
        }
    }
}
