// Why a call is refused. Each fault has a number.
ghost use Rattle.register.specs.Faults.{number_of_image_fault, number_of_record_fault};
ghost use Rattle.std.specs.Prelude.{◌≡◌};

use hashes::key_fault::KeyFault;

// Why a record is refused.
#[derive(Clone, Copy, Debug, PartialEq, Eq)]
pub enum RecordFault {
    // A zone, a point or a kind is out of its range.
    Range = 20,
    // The name is none that a panel can show.
    Name = 21,
    // The zone or the point is declared already.
    Repeated = 30,
    // A zone or a point that the record names is not declared.
    Missing = 31,
    // The message would be too long.
    Full = 32,
}

impl RecordFault {
    // The fault's number.
    pub fn number(&self) -> u8
        ensures { result ≡ number_of_record_fault self.now }
    {
        *self as u8
    }
}

// The fault of an image, and the offset of the faulty field: a pair, as line and column are.
pub type ImageRefusal = (ImageFault, usize);

// Why the check of an image comes to no answer.
#[derive(Clone, Copy, Debug, PartialEq, Eq)]
pub enum ImageFault {
    // The key buffer holds no key.
    Key(KeyFault),
    // A record is refused.
    Record(RecordFault),
    // The image is not framed.
    Framing,
    // The seal is of another family.
    Code,
}

impl ImageFault {
    // The fault's number.
    pub fn number(&self) -> u8
        ensures { result ≡ number_of_image_fault self.now }
    {
        // No number at the variants, since two hold a fault that has one.
        match self {
            ImageFault::Key(fault) => fault.number(),
            ImageFault::Record(fault) => fault.number(),
            ImageFault::Framing => 40,
            ImageFault::Code => 41,
        }
    }
}
