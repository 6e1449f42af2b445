// Why a byte string is no key.
ghost use Rattle.hashes.specs.KeyFault.{number_of_key_fault};
ghost use Rattle.std.specs.Prelude.{◌≡◌};

// The numbers are those that the library and the program answer, so they stay as they are.
#[derive(Debug, Clone, Copy, PartialEq, Eq)]
pub enum KeyFault {
    // It has another length.
    Length = 1,
    // A word that may not be zero is.
    Zero = 2,
    // The polynomial is not irreducible.
    Reducible = 3,
}

impl KeyFault {
    pub fn number(&self) -> u8
        ensures { result ≡ number_of_key_fault self.now }
    {
        *self as u8
    }
}
