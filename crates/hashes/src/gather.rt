// Small parts cost a family more than large ones. A gather around it keeps at most 64 bytes to itself and passes them on in one part.
ghost use Rattle.std.specs.Prelude.{◌≡◌, ◌≤◌, [], length};
ghost use Rattle.hashes.specs.Family.{absorbed, gather_room};

use crate::family::Family;
use crate::held::Held;
use crate::key_fault::KeyFault;

// How many bytes can be held back.
const ROOM: usize = 64;

#[derive(Drop)]
pub struct Gather<F: Family> {
    below: F,
    held: Held<ROOM>,
    ghost within: { length held ≤ gather_room },
}

impl<F: Family> Family for Gather<F> {
    ghost meaning = { F.meaning };

    // What the inner family will stand for once it has the bytes that are held back.
    ghost state = { λ g. absorbed F.meaning (F.state g.below) g.held };

    ghost lawful = { F.lawful };

    fn code() -> u8 {
        F::code()
    }

    fn key_len() -> usize {
        F::key_len()
    }

    fn open(key: &[u8]) -> Result<Gather<F>, KeyFault> {
        let below = F::open(key)?;
        Ok(Gather {
            below,
            held: Held::new(),
        })
    }

    // A part that is longer than what can be held goes down as it is, uncopied.
    fn absorb(&mut self, part: &[u8]) {
        if part.len() > self.held.room() {
            self.hand_down();
        }
        if part.len() > ROOM {
            self.below.absorb(part);
        } else {
            self.held.extend(part);
        }
    }

    fn digest(&mut self) -> u64 {
        self.hand_down();
        self.below.digest()
    }
}

impl<F: Family> Gather<F> {
    // Hands the bytes held down.
    fn hand_down(&mut self)
        ensures empty { self.new.held ≡ [] }
        ensures below { F.state self.new.below ≡ absorbed F.meaning (F.state self.old.below) self.old.held }
    {
        self.below.absorb(self.held.as_slice());
        self.held.clear();
    }
}
