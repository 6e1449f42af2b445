// The field that ends an image, a family's code and a seal: as it is written, and as it is read.
ghost use Rattle.register.specs.FieldPlaces.{seal_in};
ghost use Rattle.register.specs.Image.{seal_field};
ghost use Rattle.register.specs.Records.{bytes_of};
ghost use Rattle.std.specs.Int.{bytes_high_first};
ghost use Rattle.std.specs.Prelude.{◌≡◌};

use crate::framing::{SEAL_FIELD_LEN, SEAL_TAG, SEAL_VALUE_LEN};
use hashes::word::word_of;

// The bytes of the seal field of a code and a seal.
pub fn seal_bytes(code: u8, seal: u64) -> [u8; SEAL_FIELD_LEN]
    ensures { result ≡ bytes_of (seal_field code (bytes_high_first 8 seal)) }
{
    let [a, b, c, d, e, f, g, h] = seal.to_be_bytes();
    [SEAL_TAG, 0, SEAL_VALUE_LEN, code, a, b, c, d, e, f, g, h]
}

// The code and the seal that a field holds, if it is a seal field. The code is a byte, since an
// image may have any here.
pub(crate) fn seal_in(tag: u8, value: &[u8]) -> Option<(u8, u64)>
    ensures { result ≡ seal_in tag value.now }
{
    match (tag, value) {
        (SEAL_TAG, [code, seal @ ..]) => Some((*code, word_of(seal)?)),
        _ => None,
    }
}
