// The fields of an image by their framing: a tag, the length of the value in two bytes, and the value.
ghost use Rattle.std.specs.Prelude.{◌+◌, ◌^◌, ◌<◌, ◌≤◌};

// The tags of the fields.
pub(crate) const ZONE_TAG: u8 = 1;

pub(crate) const POINT_TAG: u8 = 2;

pub(crate) const RULE_TAG: u8 = 3;

pub const SEAL_TAG: u8 = 0x53;

// The length of what stands before the value of a field: the tag and two length bytes.
pub(crate) const HEAD_LEN: usize = 3;

// The length of a zone's number, which begins the value of its field, and of the values of a point
// and a rule.
pub(crate) const ZONE_NUMBER_LEN: u8 = 2;

pub(crate) const POINT_VALUE_LEN: u8 = 5;

pub(crate) const RULE_VALUE_LEN: u8 = 4;

// The length of a zone's field up to its name, and of the whole fields of a point and a rule.
pub(crate) const ZONE_HEAD_LEN: usize = HEAD_LEN + ZONE_NUMBER_LEN as usize;

pub(crate) const POINT_FIELD_LEN: usize = HEAD_LEN + POINT_VALUE_LEN as usize;

pub(crate) const RULE_FIELD_LEN: usize = HEAD_LEN + RULE_VALUE_LEN as usize;

// The length of a seal field's value, a code and a seal, and of the whole field.
pub const SEAL_VALUE_LEN: u8 = 9;

pub const SEAL_FIELD_LEN: usize = HEAD_LEN + SEAL_VALUE_LEN as usize;

// A field of an image: its tag, and where its value stands. By place and length and not as a slice, since a refusal answers the field's offset, and so
// that fields are taken from any image in one way.
#[derive(Clone, Copy, Debug, PartialEq, Eq)]
pub(crate) struct Field {
    // A byte, since an image may have any here.
    pub(crate) tag: u8,
    place: usize,
    length: usize,
    // The tag and two length bytes stand before the value.
    ghost after_head: { 3 ≤ place },
    ghost ends: { place + length < 2 ^ 64 },
}

impl Field {
    ghost use Rattle.register.specs.FieldPlaces.{first_place, place_of, value_in};
    ghost use Rattle.std.specs.Option.{option_map};
    ghost use Rattle.std.specs.Prelude.{◌≡◌, length};

    // The field that begins some bytes, which stand at a place of an image; None where no whole field does.
    pub(crate) fn first(bytes: &[u8], at: usize) -> Option<Field>
        requires { at + length bytes.now < 2 ^ 64 }
        ensures { option_map place_of result ≡ first_place bytes.now at }
    {
        let [tag, hi, lo, rest @ ..] = bytes else {
            return None;
        };
        let length = usize::from(u16::from_be_bytes([*hi, *lo]));
        if length > rest.len() {
            return None;
        }
        Some(Field {
            tag: *tag,
            place: at + HEAD_LEN,
            length,
        })
    }

    // Where the field begins.
    pub(crate) fn start(&self) -> usize
        ensures { result + 3 ≡ self.now.place }
    {
        self.place - HEAD_LEN
    }

    // Where the field ends.
    pub(crate) fn end(&self) -> usize
        ensures { result ≡ self.now.place + self.now.length }
    {
        self.place + self.length
    }

    // The value in the field's image.
    pub(crate) fn value<'a>(&self, image: &'a [u8]) -> &'a [u8]
        requires { self.now.place + self.now.length ≤ length image.now }
        ensures { result.now ≡ value_in image.now (place_of self.now) }
    {
        &image[self.place..self.end()]
    }
}
