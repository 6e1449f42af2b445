// The check of an image.
ghost use Rattle.register.specs.Check.{Passes, checked, says, verdict_of};
ghost use Rattle.register.specs.FieldPlaces.{place_of, value_in};
ghost use Rattle.register.specs.FieldPlaces.{seal_in as seal_of};
ghost use Rattle.register.specs.Values.{view};
ghost use Rattle.register.specs.Walking.{Walks, seal_field_answer};
ghost use Rattle.std.specs.Prelude.{◌≡◌, ◌+◌, ◌-◌, ◌≤◌, ◌↔◌, length, replicate};

use crate::fault::{ImageFault, ImageRefusal};
use crate::framing::Field;
use crate::image::{Reader, record_in};
use crate::register::Register;
use crate::seal_field::seal_in;
use hashes::family::Family;

// What a field that is no record's comes to, where a family of this code reads it: its seal, or a fault and its offset. The code is a byte, as in the
// field: that of another family is refused by 41.
fn at_seal(field: Field, image: &[u8], code: u8) -> Result<u64, ImageRefusal>
    requires { field.place + field.length ≤ length image.now }
    ensures { result ≡ seal_field_answer (seal_of field.tag (value_in image.now (place_of field))) code (field.place - 3) (field.place + field.length) (length image.now) }
{
    let found = seal_in(field.tag, field.value(image));
    let (own, seal) = found.ok_or((ImageFault::Framing, field.start()))?;
    if field.end() != image.len() {
        return Err((ImageFault::Framing, field.end()));
    }
    if own != code {
        return Err((ImageFault::Code, field.start()));
    }
    Ok(seal)
}

// Sends the fields of an image to a new register, up to the seal field. The answer is the seal that this holds.
fn read_records<F: Family>(register: &mut Register<F>, image: &[u8]) -> Result<u64, ImageRefusal>
    ensures { Walks F.meaning (view F.meaning F.state register.old) image.now result (view F.meaning F.state register.new) }
{
    // Where the next field begins. The reader is not asked: after a `for` over `&mut reader` a proof knows nothing of it, since an invariant
    // cannot name the borrow.
    let mut at = 0;
    for field in Reader::new(image) {
        let Some(record) = record_in(field.tag, field.value(image)) else {
            return at_seal(field, image, F::code());
        };
        register
            .apply(record)
            .map_err(|fault| (ImageFault::Record(fault), field.start()))?;
        at = field.end();
    }
    Err((ImageFault::Framing, at))
}

// Whether an image is sealed by a key buffer, or a fault and the offset of the faulty field. The buffer ends as zeros.
pub fn check<F: Family>(buffer: &mut [u8], image: &[u8]) -> Result<bool, ImageRefusal>
    ensures answers { verdict_of result ≡ checked F.meaning buffer.old image.now }
    ensures passes { (verdict_of result ≡ says 1) ↔ Passes F.meaning buffer.old image.now }
    ensures cleared { buffer.new ≡ replicate (length buffer.old) 0 }
{
    // Offset 0 where no field is at fault (docs/REFUSALS.md).
    let mut register = Register::<F>::open(buffer).map_err(|fault| (ImageFault::Key(fault), 0))?;
    let seal = read_records(&mut register, image)?;
    Ok(seal == register.close())
}
