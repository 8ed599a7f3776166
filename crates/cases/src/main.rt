// Runs cases of net files from standard input, a line each, and prints what comes of each.
//   NAME read BOOK HEX            reads the file, and writes back what was read
//   NAME alike BOOK HEX / HEX     reads two files, and says whether their nets are alike
//   NAME room N HEX               reads the file in book 0, and writes it to a buffer of N bytes
#![tactic(auto)]

mod case;
mod hex;

use std::io::{BufRead, BufReader};

fn main(rt: HostRuntime) -> anyhow::Result<()> {
    run(&rt)
}

fn run(rt: &HostRuntime) -> anyhow::Result<()> {
    for line in BufReader::new(rt.alloc(), rt.stdin())?.lines(rt.alloc()) {
        case::run(rt, line?.as_str())?;
    }
    Ok(())
}
