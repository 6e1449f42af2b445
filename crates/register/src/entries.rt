// Entries of numbers: which numbers are declared.
ghost use Rattle.std.specs.Prelude.{◌≡◌, ℕ, ◌<◌, false};

// What is kept of a number; a record, so that an entry can be lent and changed as a whole.
#[derive(Clone, Copy, Debug, PartialEq, Eq)]
struct Entry {
    declared: bool,
}

// The entries of the numbers below N, each at its number. An array and no set, since a panel has fixed memory and no heap.
#[derive(Drop)]
pub(crate) struct Entries<const N: usize> {
    entries: [Entry; N],
}

impl<const N: usize> Entries<N> {
    ghost use Rattle.register.specs.Entries.{declared_in};
    ghost use Rattle.register.specs.Known.{with_number};

    // Entries without a declaration.
    pub(crate) fn new() -> Self
        ensures { (k : ℕ) → declared_in result k ≡ false }
    {
        Entries {
            entries: [Entry { declared: false }; N],
        }
    }

    // Whether a number is declared.
    pub(crate) fn is_declared(&self, number: u32) -> bool
        requires { number < N }
        ensures { result ≡ declared_in self.now number }
    {
        self.entries[number as usize].declared
    }

    // Declares a number.
    pub(crate) fn declare(&mut self, number: u32)
        requires { number < N }
        ensures { (k : ℕ) → declared_in self.new k ≡ with_number (declared_in self.old) number k }
    {
        let entry = &mut self.entries[number as usize];
        entry.declared = true;
    }
}
