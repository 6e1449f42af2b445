// The fields of records: handed to a family, and written into an output.
ghost use Rattle.hashes.specs.Family.{absorbed};
ghost use Rattle.register.specs.Book.{longest_message};
ghost use Rattle.register.specs.Encoded.{encoded_bytes};
ghost use Rattle.register.specs.Records.{bytes_of, field_of, two_bytes};
ghost use Rattle.register.specs.Writing.{put};
ghost use Rattle.std.specs.Prelude.{◌≡◌, ◌<◌, ◌≤◌};

use crate::framing::{
    POINT_FIELD_LEN, POINT_TAG, POINT_VALUE_LEN, RULE_FIELD_LEN, RULE_TAG, RULE_VALUE_LEN,
    ZONE_HEAD_LEN, ZONE_NUMBER_LEN, ZONE_TAG,
};
use crate::output::put_bytes;
use crate::record::SiteRecord;
use crate::sound::SoundRecord;
use hashes::family::Family;

// The bytes of a record's field.
#[derive(Clone, Copy, Debug, PartialEq, Eq)]
enum EncodedField<'a> {
    // A zone's, but for the name, and the name.
    Zone([u8; ZONE_HEAD_LEN], &'a [u8]),
    // A point's.
    Point([u8; POINT_FIELD_LEN]),
    // A rule's.
    Rule([u8; RULE_FIELD_LEN]),
}

// A number below 65,536 as two bytes, highest first.
fn two_bytes(n: u32) -> [u8; 2]
    requires { n < 65536 }
    ensures { result ≡ two_bytes n }
{
    (n as u16).to_be_bytes()
}

impl<'a> From<&SoundRecord<'a>> for EncodedField<'a> {
    ghost from_gives = { λ sound field. encoded_bytes field ≡ bytes_of (field_of sound.now) };

    fn from(sound: &SoundRecord<'a>) -> EncodedField<'a> {
        match sound.site {
            SiteRecord::Zone { number, name } => {
                let [hi, lo] = two_bytes(number);
                EncodedField::Zone(
                    [ZONE_TAG, 0, ZONE_NUMBER_LEN + name.len() as u8, hi, lo],
                    name,
                )
            }
            SiteRecord::Point { number, zone, kind } => {
                let [hi, lo] = two_bytes(number);
                let [zone_hi, zone_lo] = two_bytes(zone);
                EncodedField::Point([
                    POINT_TAG,
                    0,
                    POINT_VALUE_LEN,
                    hi,
                    lo,
                    zone_hi,
                    zone_lo,
                    kind,
                ])
            }
            SiteRecord::Rule { zone, point } => {
                let [zone_hi, zone_lo] = two_bytes(zone);
                let [hi, lo] = two_bytes(point);
                EncodedField::Rule([RULE_TAG, 0, RULE_VALUE_LEN, zone_hi, zone_lo, hi, lo])
            }
        }
    }
}

// Hands the field of a record to a family.
// It matches on the field as `put_field` does: two parts as slices, one of them empty for a point and for a rule, would be no plainer.
// Inlined, as `put_field` is.
#[inline(always)]
pub(crate) fn send<F: Family>(family: &mut F, sound: &SoundRecord)
    ensures { F.state family.new ≡ absorbed F.meaning (F.state family.old) (bytes_of (field_of sound.now)) }
{
    match EncodedField::from(sound) {
        EncodedField::Zone(head, name) => {
            family.absorb(&head);
            family.absorb(name);
        }
        EncodedField::Point(bytes) => family.absorb(&bytes),
        EncodedField::Rule(bytes) => family.absorb(&bytes),
    }
}

// Writes the field of a record at a place of an output, where there is room for all of it. Inlined,
// as `send` is.
#[inline(always)]
pub(crate) fn put_field(out: &mut [u8], at: usize, sound: &SoundRecord)
    requires { at ≤ longest_message }
    ensures { out.new ≡ put out.old at (bytes_of (field_of sound.now)) }
{
    match EncodedField::from(sound) {
        EncodedField::Zone(head, name) => {
            // The name first: where there is room for it, there is for what stands before it.
            if put_bytes(out, at + ZONE_HEAD_LEN, name) {
                put_bytes(out, at, &head);
            }
        }
        EncodedField::Point(bytes) => {
            put_bytes(out, at, &bytes);
        }
        EncodedField::Rule(bytes) => {
            put_bytes(out, at, &bytes);
        }
    }
}
