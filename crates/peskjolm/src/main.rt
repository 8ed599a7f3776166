// peskjolm: a workbench for net files.
#![tactic(auto)]

mod notation;
mod show;

use anyhow::anyhow;
use std::env;
use std::io::Read;

const HELP: &str =
    "peskjolm show    reads a net file on standard input and prints what it holds\npeskjolm help    prints this page\n";

fn main(rt: HostRuntime) -> anyhow::Result<()> {
    run(&rt)
}

// Runs the subcommand that the first argument names.
fn run(rt: &HostRuntime) -> anyhow::Result<()> {
    let mut args = env::args(rt)?;
    let _program = args.next();
    match args.next() {
        Some(word) => subcommand(rt, word.as_str()),
        None => Err(anyhow!("no subcommand: see `peskjolm help`")),
    }
}

fn subcommand(rt: &HostRuntime, word: &str) -> anyhow::Result<()> {
    match word {
        "show" => {
            let mut bytes = Vec::new(rt.alloc());
            rt.stdin().read_to_end(&mut bytes)?;
            Ok(show::show(rt, &bytes)?)
        }
        "help" => Ok(rt.print(HELP)?),
        _ => Err(anyhow!("no such subcommand: see `peskjolm help`")),
    }
}
