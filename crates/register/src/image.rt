// Reading an image field by field.
ghost use Rattle.std.specs.Prelude.{◌≡◌, ◌+◌, ◌-◌, ◌*◌, ◌≤◌, length};
ghost use Rattle.std.specs.Iterator.{at_most};
ghost use Rattle.std.specs.Option.{option_map};
ghost use Rattle.register.specs.FieldPlaces.{ReadsNext, ReadsRecord, place_of};

use crate::framing::{Field, POINT_TAG, RULE_TAG, ZONE_TAG};
use crate::record::SiteRecord;

// Goes through an image field by field.
#[derive(Drop)]
pub(crate) struct Reader<'a> {
    image: &'a [u8],
    // Where the next field begins. A place, as in a field.
    at: usize,
    ghost within: { at ≤ length image.now },
}

impl<'a> Reader<'a> {
    // A reader at the start of an image.
    pub(crate) fn new(image: &'a [u8]) -> Reader<'a>
        ensures holds { result.image.now ≡ image.now }
        ensures start { result.at ≡ 0 }
    {
        Reader { image, at: 0 }
    }
}

impl Iterator for Reader<'_> {
    type Item = Field;

    ghost next_gives = { λ old field new. ReadsNext old.image.now old.at (option_map place_of field) new.image.now new.at };

    ghost remaining = { λ reader. at_most (length reader.image.now - reader.at) };

    // The next field; None where no whole field is left.
    fn next(&mut self) -> Option<Field> {
        let field = Field::first(&self.image[self.at..], self.at)?;
        self.at = field.end();
        Some(field)
    }
}

// A number of two bytes, highest first.
fn number(hi: u8, lo: u8) -> u32
    ensures { result ≡ hi * 256 + lo }
{
    u32::from(u16::from_be_bytes([hi, lo]))
}

// The record that a field holds, if its tag and length are a record's. The tag is a byte, as in a field.
pub(crate) fn record_in(tag: u8, value: &[u8]) -> Option<SiteRecord>
    ensures { ReadsRecord tag value.now result }
{
    match (tag, value) {
        (ZONE_TAG, [a, b, name @ ..]) => Some(SiteRecord::Zone {
            number: number(*a, *b),
            name,
        }),
        (POINT_TAG, [a, b, c, d, kind]) => Some(SiteRecord::Point {
            number: number(*a, *b),
            zone: number(*c, *d),
            kind: *kind,
        }),
        (RULE_TAG, [a, b, c, d]) => Some(SiteRecord::Rule {
            zone: number(*a, *b),
            point: number(*c, *d),
        }),
        _ => None,
    }
}
