// Records that fit their fields: their numbers are in range, and a panel can show their name.
ghost use Rattle.register.specs.Book.{longest_name};
ghost use Rattle.register.specs.Known.{name_byte, name_fault, range_fault, zone_name};
ghost use Rattle.register.specs.Known.{within as between};
ghost use Rattle.register.specs.Records.{field_length};
ghost use Rattle.register.specs.Values.{record_of};
ghost use Rattle.std.specs.List.{list_all};
ghost use Rattle.std.specs.Prelude.{◌≡◌, ◌+◌, ◌≤◌};

use crate::fault::RecordFault;
use crate::framing::{POINT_FIELD_LEN, RULE_FIELD_LEN, ZONE_HEAD_LEN};
use crate::limits::{KINDS, LONGEST_NAME, POINTS, ZONES};
use crate::record::SiteRecord;
use std::marker::Model;

// A record whose numbers are in range, with a name that a panel can show.
// Neither `Copy` nor `PartialEq`: they need the fields back from the value, and a list of bytes gives no slice back.
#[derive(Drop, Debug)]
pub(crate) struct SoundRecord<'a> {
    pub(crate) site: SiteRecord<'a>,
}

impl<'a> Model for SoundRecord<'a> {
    ghost use Rattle.std.specs.Prelude.{◌≡◌, false};
    ghost use Rattle.register.specs.Known.{name_fault, range_fault};
    ghost use Rattle.register.specs.Records.{Record};
    ghost use Rattle.register.specs.Values.{record_of};

    ghost Value = { Record };

    ghost view = { λ sound. record_of sound.site };

    ghost invariant = { λ sound. (range_fault (record_of sound.site) ≡ false) × (name_fault (record_of sound.site) ≡ false) };
}

// Whether a number is from 1 to the highest.
fn in_range(n: u32, high: u32) -> bool
    ensures { result ≡ between 1 high n }
{
    (1..=high).contains(&n)
}

// Whether a number of a record is out of its range.
fn out_of_range(record: SiteRecord) -> bool
    ensures { result ≡ range_fault (record_of «record».entry) }
{
    match record {
        SiteRecord::Zone { number, .. } => !in_range(number, ZONES),
        SiteRecord::Point { number, zone, kind } => {
            !(in_range(number, POINTS) && in_range(zone, ZONES) && in_range(u32::from(kind), KINDS))
        }
        SiteRecord::Rule { zone, point } => !(in_range(zone, ZONES) && in_range(point, POINTS)),
    }
}

// Whether a panel can show a byte.
fn name_byte(b: u8) -> bool
    ensures { result ≡ name_byte b }
{
    matches!(b, 0x20..=0x7E | 0x0A)
}

// Whether a panel can show each byte of a name.
fn name_bytes(name: &[u8]) -> bool
    ensures { result ≡ list_all name_byte name.now }
{
    name.iter().all(|b| name_byte(*b))
}

// Whether a panel can show a name.
fn zone_name(name: &[u8]) -> bool
    ensures { result ≡ zone_name name.now }
{
    (1..=LONGEST_NAME).contains(&name.len()) && name_bytes(name)
}

// Whether a record has a name that a panel cannot show.
fn bad_name(record: SiteRecord) -> bool
    ensures { result ≡ name_fault (record_of «record».entry) }
{
    match record {
        SiteRecord::Zone { name, .. } => !zone_name(name),
        _ => false,
    }
}

impl<'a> TryFrom<SiteRecord<'a>> for SoundRecord<'a> {
    ghost use Rattle.hashes.specs.KeyFault.{judged};
    ghost use Rattle.register.specs.Known.{unsound};

    type Error = RecordFault;

    ghost try_from_gives = { λ given made. made ≡ judged (record_of given) (unsound (record_of given)) };

    fn try_from(record: SiteRecord<'a>) -> Result<SoundRecord<'a>, RecordFault> {
        if out_of_range(record) {
            return Err(RecordFault::Range);
        }
        if bad_name(record) {
            return Err(RecordFault::Name);
        }
        Ok(SoundRecord { site: record })
    }
}

impl SoundRecord<'_> {
    // How many bytes the record adds to the message.
    pub(crate) fn field_length(&self) -> usize
        ensures long { result ≡ field_length self.now }
        ensures short { result ≤ 5 + longest_name }
    {
        match self.site {
            SiteRecord::Zone { name, .. } => ZONE_HEAD_LEN + name.len(),
            SiteRecord::Point { .. } => POINT_FIELD_LEN,
            SiteRecord::Rule { .. } => RULE_FIELD_LEN,
        }
    }
}
