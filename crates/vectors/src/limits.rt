// What the book takes at its limits: numbers, kinds, names, and the length of the message.
use crate::buffers;
use hashes::division::Division;
use hashes::family::Family;
use hashes::gather::Gather;
use register::fault::RecordFault;
use register::register::Register;
use std::io;
use std::io::Print;
use tally::Tally;

const NAME: [u8; 41] = [0x41; 41];

type Site = Register<Gather<Division>>;

// Prints the answer of a call: 0 and the message's length, or the number of a refusal and 0. The number is compared, not the fault.
fn show(
    rt: &impl Print,
    tally: &mut Tally,
    what: &str,
    answer: Result<usize, RecordFault>,
    known: Result<usize, u8>,
) -> io::Result<()> {
    let found = answer.map_err(|fault| fault.number());
    let verdict = tally.verdict(found == known);
    match found {
        Ok(length) => println!(rt; "{what}: 0 {length} {verdict}"),
        Err(number) => println!(rt; "{what}: {number} 0 {verdict}"),
    }
}

fn zones(rt: &impl Print, tally: &mut Tally, site: &mut Site) -> io::Result<()> {
    show(rt, tally, "zone 250", site.zone(250, b"A"), Ok(6))?;
    show(rt, tally, "zone 251", site.zone(251, b"A"), Err(20))?;
    show(rt, tally, "zone 0", site.zone(0, b"A"), Err(20))?;
    show(
        rt,
        tally,
        "zone 4294967295",
        site.zone(4294967295, b"A"),
        Err(20),
    )?;
    show(rt, tally, "zone 0, no name", site.zone(0, b""), Err(20))?;
    show(rt, tally, "no name", site.zone(1, b""), Err(21))?;
    show(
        rt,
        tally,
        "a name of 41 bytes",
        site.zone(1, &NAME),
        Err(21),
    )?;
    show(
        rt,
        tally,
        "a name of 40 bytes",
        site.zone(1, &NAME[..40]),
        Ok(51),
    )?;
    show(rt, tally, "a name with 0A", site.zone(2, b"A\nB"), Ok(59))?;
    show(rt, tally, "a name with 7F", site.zone(3, b"\x7F"), Err(21))
}

fn points(rt: &impl Print, tally: &mut Tally, site: &mut Site) -> io::Result<()> {
    show(rt, tally, "point 1000", site.point(1000, 250, 4), Ok(67))?;
    show(rt, tally, "point 1001", site.point(1001, 250, 4), Err(20))?;
    show(rt, tally, "kind 0", site.point(1, 250, 0), Err(20))?;
    show(rt, tally, "kind 5", site.point(1, 250, 5), Err(20))?;
    show(
        rt,
        tally,
        "a second point 1000",
        site.point(1000, 1, 1),
        Err(30),
    )?;
    show(rt, tally, "point in zone 3", site.point(1, 3, 1), Err(31))?;
    show(rt, tally, "rule 250 1001", site.rule(250, 1001), Err(20))?;
    show(rt, tally, "rule 250 1", site.rule(250, 1), Err(31))?;
    show(rt, tally, "rule 250 1000", site.rule(250, 1000), Ok(74))
}

// A zone with this name, a point in it, and 8,568 rules of seven bytes.
fn fill(site: &mut Site, name: &[u8]) {
    let _ = site.zone(1, name);
    let _ = site.point(1, 1, 2);
    for _ in 0..8568u32 {
        let _ = site.rule(1, 1);
    }
}

// As many rules as the message has room for, and one more. What else is wrong is found before that.
fn full(rt: &impl Print, tally: &mut Tally, mut site: Site) -> io::Result<()> {
    fill(&mut site, b"A");
    show(rt, tally, "the 8569th rule", site.rule(1, 1), Ok(59997))?;
    show(rt, tally, "the 8570th rule", site.rule(1, 1), Err(32))?;
    show(rt, tally, "zone 1 again", site.zone(1, b"A"), Err(30))?;
    show(rt, tally, "a rule for zone 2", site.rule(2, 1), Err(31))?;
    show(rt, tally, "zone 2", site.zone(2, b"A"), Err(32))?;
    tally.word(
        rt,
        "the seal of 59997 bytes",
        site.close(),
        0xA9D930AFE1E40008,
    )
}

// The longest message: 9 and 8 bytes, and 8,569 rules. A zone of 8 bytes in place of the last rule
// would be one byte too many.
fn longest(rt: &impl Print, tally: &mut Tally, mut site: Site) -> io::Result<()> {
    fill(&mut site, b"HALL");
    show(rt, tally, "60001 bytes", site.zone(2, b"ABC"), Err(32))?;
    show(rt, tally, "60000 bytes", site.rule(1, 1), Ok(60000))?;
    tally.word(
        rt,
        "the seal of 60000 bytes",
        site.close(),
        0x04AB9F256925BC02,
    )
}

fn open() -> Option<Site> {
    Site::open(&mut buffers::division()).ok()
}

pub fn run(rt: &impl Print, tally: &mut Tally) -> io::Result<()> {
    match open() {
        Some(mut site) => {
            zones(rt, tally, &mut site)?;
            points(rt, tally, &mut site)?;
        }
        None => tally.line(rt, "a book at its limits", false)?,
    }
    match open() {
        Some(site) => full(rt, tally, site)?,
        None => tally.line(rt, "a full message", false)?,
    }
    match open() {
        Some(site) => longest(rt, tally, site),
        None => tally.line(rt, "the longest message", false),
    }
}
