// A record that a call asks a register to take.
ghost use Rattle.register.specs.Records.{Record};
ghost use Rattle.register.specs.Values.{record_of};
ghost use Rattle.std.specs.Prelude.{◌≡◌};

#[derive(Clone, Copy, Debug, PartialEq, Eq)]
pub enum SiteRecord<'a> {
    // A zone and its name.
    Zone { number: u32, name: &'a [u8] },
    // A point of a kind, in a zone. A byte and no enum, since a call may ask for any kind, and one that there is not is a fault.
    Point { number: u32, zone: u32, kind: u8 },
    // The point that goes off where the zone has an alarm.
    Rule { zone: u32, point: u32 },
}

// A point as a record, its kind a byte as there.
pub fn point_record<'a>(number: u32, zone: u32, kind: u8) -> SiteRecord<'a>
    ensures { record_of result ≡ Record.point number zone kind }
{
    SiteRecord::Point { number, zone, kind }
}

// A rule as a record, for callers that hold the two numbers.
pub fn rule_record<'a>(zone: u32, point: u32) -> SiteRecord<'a>
    ensures { record_of result ≡ Record.rule zone point }
{
    SiteRecord::Rule { zone, point }
}
