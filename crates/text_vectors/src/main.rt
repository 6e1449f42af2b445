// Makes images of texts and seals whole inputs with known answers, and compares: a line for each, what went in and what came out, and a closing
// count.
#![tactic(auto)]

mod inputs;
mod known;
mod texts;

use std::io;
use tally::Tally;

fn main(rt: HostRuntime) -> io::Result<()> {
    let mut tally = Tally::new();
    texts::run(&rt, &mut tally)?;
    inputs::run(&rt, &mut tally)?;
    println!(rt; "{tally}")
}
