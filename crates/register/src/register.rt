// The register: records go in by calls, and closing gives their seal.
ghost use Rattle.hashes.specs.KeyFault.{opened};
ghost use Rattle.register.specs.Records.{Record};
ghost use Rattle.register.specs.Values.{record_of, view};
ghost use Rattle.register.specs.View.{Keeps, after, opening, reply, reply_of, seal};
ghost use Rattle.register.specs.Writing.{output_after};
ghost use Rattle.std.specs.Prelude.{◌≡◌, length, replicate};

use crate::book::Book;
use crate::fault::RecordFault;
use crate::field::{put_field, send};
use crate::record::{SiteRecord, point_record, rule_record};
use hashes::family::Family;
use hashes::key_fault::KeyFault;
use hashes::word::word_of;

// The length of the pad, which stands after the key in a key buffer.
pub const PAD_LEN: usize = 8;

// No `impl Model`: its value would be `View F.meaning`, and a `Value` cannot name a bound's member.
#[derive(Drop)]
pub struct Register<F: Family> {
    // The hash of the message, under way.
    family: F,
    pad: u64,
    book: Book,
}

// Key bytes, which are zeroed when the guard ends. Each call says itself that its buffer ends as zeros: that is a slice of the caller's, and a type
// round it would ask more of callers.
struct KeyGuard<'a> {
    bytes: &'a mut [u8],
}

impl Drop for KeyGuard<'_> {
    fn drop(self)
        ensures { self.exit.0.now ≡ replicate (length self.entry.bytes.now) 0 }
    {
        self.bytes.fill(0);
        // `drop` has the guard by value, and ends it by taking it apart.
        let KeyGuard { bytes: _ } = self;
    }
}

// Opens a register by the bytes of a key buffer.
fn from_key<F: Family>(buffer: &[u8]) -> Result<Register<F>, KeyFault>
    ensures { opened (view F.meaning F.state) result ≡ opening F.meaning buffer.now }
{
    // No overflow: by the law of a family a key is short.
    if buffer.len() != F::key_len() + PAD_LEN {
        return Err(KeyFault::Length);
    }
    let (key, pad) = buffer.split_at(F::key_len());
    let pad = word_of(pad).ok_or(KeyFault::Length)?;
    let family = F::open(key)?;
    Ok(Register {
        family,
        pad,
        book: Book::new(),
    })
}

// The calls of records each say what they answer, what they leave and what they keep: that is of a call, before and after it, and an invariant or
// a Model sees a register at one time.
impl<F: Family> Register<F> {
    // Opens a register by a key buffer, the key and then eight pad bytes, and leaves only zeros in it.
    pub fn open(buffer: &mut [u8]) -> Result<Register<F>, KeyFault>
        ensures opens { opened (view F.meaning F.state) result ≡ opening F.meaning buffer.old }
        ensures cleared { buffer.new ≡ replicate (length buffer.old) 0 }
    {
        let guard = KeyGuard { bytes: buffer };
        from_key(&*guard.bytes)
    }

    // The length of the message.
    pub fn len(&self) -> usize
        ensures { result ≡ (view F.meaning F.state self.now).known.bytes }
    {
        self.book.len()
    }

    // Takes a record and writes its field into an output, after the message, where there is room. The answer is the length of the message after it.
    // Inlined, as `send` is: a record, and the result, are then handed on in registers, which saves a third of the time of a check.
    #[inline(always)]
    pub fn apply_into(&mut self, record: SiteRecord, out: &mut [u8]) -> Result<usize, RecordFault>
        ensures answers { reply_of result ≡ reply F.meaning (view F.meaning F.state self.old) (record_of «record».entry) }
        ensures leaves { view F.meaning F.state self.new ≡ after F.meaning (view F.meaning F.state self.old) (record_of «record».entry) }
        ensures writes { out.new ≡ output_after F.meaning (view F.meaning F.state self.old) (record_of «record».entry) out.old }
        ensures keeps { Keeps result self.old self.new }
    {
        let sound = self.book.admit(record)?;
        put_field(out, self.book.len(), &sound);
        send(&mut self.family, &sound);
        self.book.enter(&sound);
        Ok(self.book.len())
    }

    // Takes a record.
    pub fn apply(&mut self, record: SiteRecord) -> Result<usize, RecordFault>
        ensures answers { reply_of result ≡ reply F.meaning (view F.meaning F.state self.old) (record_of «record».entry) }
        ensures leaves { view F.meaning F.state self.new ≡ after F.meaning (view F.meaning F.state self.old) (record_of «record».entry) }
        ensures keeps { Keeps result self.old self.new }
    {
        self.apply_into(record, &mut [])
    }

    // Declares a zone.
    pub fn zone(&mut self, number: u32, name: &[u8]) -> Result<usize, RecordFault>
        ensures answers { reply_of result ≡ reply F.meaning (view F.meaning F.state self.old) (Record.zone number name.now) }
        ensures leaves { view F.meaning F.state self.new ≡ after F.meaning (view F.meaning F.state self.old) (Record.zone number name.now) }
        ensures keeps { Keeps result self.old self.new }
    {
        self.apply(SiteRecord::Zone { number, name })
    }

    // Declares a point. Its kind is a byte, as in a record.
    pub fn point(&mut self, number: u32, zone: u32, kind: u8) -> Result<usize, RecordFault>
        ensures answers { reply_of result ≡ reply F.meaning (view F.meaning F.state self.old) (Record.point number zone kind) }
        ensures leaves { view F.meaning F.state self.new ≡ after F.meaning (view F.meaning F.state self.old) (Record.point number zone kind) }
        ensures keeps { Keeps result self.old self.new }
    {
        self.apply(point_record(number, zone, kind))
    }

    // Adds a rule: where the zone has an alarm, the point goes off.
    pub fn rule(&mut self, zone: u32, point: u32) -> Result<usize, RecordFault>
        ensures answers { reply_of result ≡ reply F.meaning (view F.meaning F.state self.old) (Record.rule zone point) }
        ensures leaves { view F.meaning F.state self.new ≡ after F.meaning (view F.meaning F.state self.old) (Record.rule zone point) }
        ensures keeps { Keeps result self.old self.new }
    {
        self.apply(rule_record(zone, point))
    }

    // Ends the register. The seal is the message's hash with the pad added, as a sum of bits.
    pub fn close(self) -> u64
        ensures { result ≡ seal F.meaning (view F.meaning F.state self) }
    {
        let Register {
            mut family,
            pad,
            ..
        } = self;
        family.digest() ^ pad
    }
}
