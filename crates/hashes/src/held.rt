// A run of at most N bytes, in memory of its own.
ghost use Rattle.std.specs.Prelude.{◌≡◌, ℕ, ◌+◌, ◌≤◌, List, [], ◌++◌, length, take};

use std::marker::Model;

// Fixed memory, and a length beside it: a panel has no heap.
#[derive(Drop)]
pub(crate) struct Held<const N: usize> {
    bytes: [u8; N],
    len: usize,
}

// Clauses see the bytes held.
impl<const N: usize> Model for Held<N> {
    ghost Value = { List ℕ };

    ghost view = { λ h. take h.len h.bytes };

    ghost invariant = { λ h. h.len ≤ N };
}

impl<const N: usize> Held<N> {
    pub(crate) fn new() -> Self
        ensures { result ≡ [] }
    {
        Held {
            bytes: [0; N],
            len: 0,
        }
    }

    pub(crate) fn as_slice(&self) -> &[u8]
        ensures { result.now ≡ self.now }
    {
        &self.bytes[..self.len]
    }

    // How many bytes more can be held.
    pub(crate) fn room(&self) -> usize
        ensures { result + length self.now ≡ N }
    {
        N - self.len
    }

    pub(crate) fn extend(&mut self, part: &[u8])
        requires { length self.old + length part.now ≤ N }
        ensures { self.new ≡ self.old ++ part.now }
    {
        let end = self.len + part.len();
        let bytes = &mut self.bytes[..];
        bytes[self.len..end].copy_from_slice(part);
        self.len = end;
    }

    pub(crate) fn clear(&mut self)
        ensures { self.new ≡ [] }
    {
        self.len = 0;
    }
}
