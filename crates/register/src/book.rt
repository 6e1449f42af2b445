// The site book: which zones and points are declared, and how long the message is.
ghost use Rattle.register.specs.Book.{longest_message};
ghost use Rattle.std.specs.Prelude.{◌≤◌};

use crate::entries::Entries;
use crate::fault::RecordFault;
use crate::limits::{LONGEST_MESSAGE, POINTS, ZONES};
use crate::record::SiteRecord;
use crate::sound::SoundRecord;

// Numbers begin at 1, so the entry at 0 stays without a declaration.
const ZONE_ENTRIES: usize = ZONES as usize + 1;

const POINT_ENTRIES: usize = POINTS as usize + 1;

// No `impl Model`: its value would be `Known`, which holds functions. A value needs a code, and no function has one.
#[derive(Drop)]
pub(crate) struct Book {
    zones: Entries<ZONE_ENTRIES>,
    points: Entries<POINT_ENTRIES>,
    // The length of the message.
    len: usize,
    ghost within: { len ≤ longest_message },
}

impl Book {
    ghost use Rattle.std.specs.Prelude.{◌≡◌, ◌+◌, []};
    ghost use Rattle.hashes.specs.KeyFault.{judged};
    ghost use Rattle.register.specs.Known.{known_of, missing_fault, first_fault_by, repeat_fault, with_declared, with_record};
    ghost use Rattle.register.specs.Records.{field_length};
    ghost use Rattle.register.specs.Values.{known_in, record_of};

    // The book of a new register.
    pub(crate) fn new() -> Self
        ensures { known_in result ≡ known_of [] }
    {
        Book {
            zones: Entries::new(),
            points: Entries::new(),
            len: 0,
        }
    }

    // The length of the message.
    pub(crate) fn len(&self) -> usize
        ensures bytes { result ≡ (known_in self.now).bytes }
        ensures within { result ≤ longest_message }
    {
        self.len
    }

    // Whether what a record declares is declared already.
    fn repeats(&self, sound: &SoundRecord) -> bool
        ensures { result ≡ repeat_fault (known_in self.now) sound.now }
    {
        match sound.site {
            SiteRecord::Zone { number, .. } => self.zones.is_declared(number),
            SiteRecord::Point { number, .. } => self.points.is_declared(number),
            SiteRecord::Rule { .. } => false,
        }
    }

    // Whether a record names a zone or a point that is not declared.
    fn misses(&self, sound: &SoundRecord) -> bool
        ensures { result ≡ missing_fault (known_in self.now) sound.now }
    {
        match sound.site {
            SiteRecord::Zone { .. } => false,
            SiteRecord::Point { zone, .. } => !self.zones.is_declared(zone),
            SiteRecord::Rule { zone, point } => {
                !(self.zones.is_declared(zone) && self.points.is_declared(point))
            }
        }
    }

    // Refuses a record by the first row that fits.
    pub(crate) fn admit<'a>(&self, record: SiteRecord<'a>) -> Result<SoundRecord<'a>, RecordFault>
        ensures { result ≡ judged (record_of «record».entry) (first_fault_by (known_in self.now) (record_of «record».entry)) }
    {
        let sound = SoundRecord::try_from(record)?;
        if self.repeats(&sound) {
            return Err(RecordFault::Repeated);
        }
        if self.misses(&sound) {
            return Err(RecordFault::Missing);
        }
        if self.len + sound.field_length() > LONGEST_MESSAGE {
            return Err(RecordFault::Full);
        }
        Ok(sound)
    }

    // Declares what a record declares.
    fn declare(&mut self, sound: &SoundRecord)
        ensures { known_in self.new ≡ with_declared (known_in self.old) sound.now }
    {
        match sound.site {
            SiteRecord::Zone { number, .. } => self.zones.declare(number),
            SiteRecord::Point { number, .. } => self.points.declare(number),
            SiteRecord::Rule { .. } => {}
        }
    }

    // Enters a record that no row refuses.
    pub(crate) fn enter(&mut self, sound: &SoundRecord)
        requires room { (known_in self.old).bytes + field_length sound.now ≤ longest_message }
        ensures { known_in self.new ≡ with_record (known_in self.old) sound.now }
    {
        self.declare(sound);
        self.len += sound.field_length();
    }
}
