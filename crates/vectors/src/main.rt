// Runs hashes, keys, lines, sites, limits and images with known answers, and compares: a line for each, what went in and what came out, and a
// closing count.
#![tactic(auto)]

mod buffers;
mod division;
mod families;
mod images;
mod keys;
mod limits;
mod lines;
mod sites;
mod table;

use std::io;
use tally::Tally;

fn main(rt: HostRuntime) -> io::Result<()> {
    let mut tally = Tally::new();
    division::worked(&rt, &mut tally)?;
    division::checksums(&rt, &mut tally)?;
    division::long(&rt, &mut tally)?;
    keys::irreducible(&rt, &mut tally)?;
    keys::reducible(&rt, &mut tally)?;
    families::worked(&rt, &mut tally)?;
    families::longer(&rt, &mut tally)?;
    families::refusals(&rt, &mut tally)?;
    lines::run(&rt, &mut tally)?;
    sites::run(&rt, &mut tally)?;
    limits::run(&rt, &mut tally)?;
    images::run(&rt, &mut tally)?;
    println!(rt; "{tally}")
}
