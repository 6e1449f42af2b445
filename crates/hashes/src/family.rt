// The interface of a family of keyed hashes. Its ghost members say what the family computes; its law says how rarely messages agree.
ghost use Rattle.hashes.specs.Family.{Lawful, Meaning, absorbed};
ghost use Rattle.hashes.specs.FamilyExamples.{FamilyExamples};
ghost use Rattle.hashes.specs.KeyFault.{family_opening, opened};
ghost use Rattle.std.specs.Prelude.{◌≡◌};

use crate::key_fault::KeyFault;

pub trait Family: Sized + Drop {
    // What the family computes.
    ghost meaning: { Meaning };

    // What a value of the type stands for.
    ghost state: { Self → meaning.State };

    // `code` and `key_len` are functions: a constant of the trait would need a ghost member beside it that says what it is.

    // The family's code. A byte, since that is what an image has, and it may have any.
    fn code() -> u8
        ensures { result ≡ meaning.code };

    // How many bytes a key has.
    fn key_len() -> usize
        ensures { result ≡ meaning.key_len };

    // Every key gets its first state, every other string its refusal.
    fn open(key: &[u8]) -> Result<Self, KeyFault>
        ensures { opened state result ≡ family_opening meaning key.now };

    // Takes in a part of the message.
    fn absorb(&mut self, part: &[u8])
        ensures { state self.new ≡ absorbed meaning (state self.old) part.now };

    // The closing word. What the value stands for stays; a value that holds bytes back may hand them down.
    fn digest(&mut self) -> u64
        ensures closes { result ≡ meaning.close (state self.old) }
        ensures stays { state self.new ≡ state self.old };

    // What each `impl` proves of its meaning.
    ghost lawful: { Lawful meaning };
}

// Codes, lengths of keys, bounds and a modulus, by numbers that were worked by hand.
#[tactic(auto, using(crate::proofs::FamilyExamples::family_examples))]
pub fn family_examples()
    ensures { FamilyExamples }
{}
