// One case: a line, and what comes of it.
use crate::hex;
use alike::is_alike;
use books::book::Book;
use books::combinators::Combinators;
use books::counts::Counts;
use netfile::reader::{ReadFault, read};
use netfile::writer::{FILE_ROOM, write};
use nets::table::Table;
use refusals::fault::Fault;
use std::alloc::AllocError;

/// Runs the case that a line has, and prints its name and what came of it.
pub fn run(rt: &HostRuntime, line: &str) -> anyhow::Result<()> {
    let mut words = line.splitn(4, ' ');
    let (Some(name), Some(command), Some(number), Some(text)) = (
        words.next(),
        words.next(),
        words.next(),
        words.next(),
    ) else {
        return Ok(());
    };
    print!(rt; "{name} ")?;
    match (command, number) {
        ("room", _) => run_room(rt, number.parse::<usize>()?, text),
        (_, "1") => run_in(rt, &Counts, command, text),
        _ => run_in(rt, &Combinators, command, text),
    }
}

fn run_in<B: Book>(rt: &HostRuntime, book: &B, command: &str, text: &str) -> anyhow::Result<()> {
    match text.split_once('/') {
        Some((first, second)) if command == "alike" => run_alike(rt, book, first, second),
        _ => run_read(rt, book, text),
    }
}

// Reads a file, and writes back what was read.
fn run_read<B: Book>(rt: &HostRuntime, book: &B, text: &str) -> anyhow::Result<()> {
    let bytes = hex::bytes(rt.alloc(), text)?;
    match read(rt.alloc(), book, &bytes) {
        Ok(table) => print_written(rt, book, &table, &bytes),
        Err(fault) => print_fault(rt, fault),
    }
}

fn print_written<B: Book>(
    rt: &HostRuntime,
    book: &B,
    table: &Table,
    bytes: &[u8],
) -> anyhow::Result<()> {
    let mut out = vec![in rt.alloc(); 0u8; FILE_ROOM]?;
    match write(book, table, &mut out) {
        Ok(n) => {
            let same = out.get(0..n) == Some(bytes);
            println!(rt;
                "ok, written back {}",
                if same { "the same" } else { "otherwise" }
            )?;
        }
        Err(fault) => println!(rt; "{}", fault.refusal())?,
    }
    Ok(())
}

// Says whether the nets of two files are alike.
fn run_alike<B: Book>(rt: &HostRuntime, book: &B, first: &str, second: &str) -> anyhow::Result<()> {
    let ours = read(rt.alloc(), book, &hex::bytes(rt.alloc(), first)?);
    let theirs = read(rt.alloc(), book, &hex::bytes(rt.alloc(), second)?);
    match (ours, theirs) {
        (Ok(a), Ok(b)) => println!(rt;
            "{}",
            if is_alike(&a, &b) {
                "alike"
            } else {
                "different"
            }
        )?,
        (Err(fault), _) => print_fault(rt, fault)?,
        (_, Err(fault)) => print_fault(rt, fault)?,
    }
    Ok(())
}

// Writes a net to a buffer of some size, and says what became of the buffer.
fn run_room(rt: &HostRuntime, size: usize, text: &str) -> anyhow::Result<()> {
    let mut out = vec![in rt.alloc(); 170u8; size]?;
    let bytes = hex::bytes(rt.alloc(), text)?;
    match read(rt.alloc(), &Combinators, &bytes) {
        Ok(table) => match write(&Combinators, &table, &mut out) {
            Ok(n) => println!(rt; "wrote {n}, kept {}", kept(&out))?,
            Err(fault) => println!(rt; "{}, kept {}", fault.refusal(), kept(&out))?,
        },
        Err(fault) => print_fault(rt, fault)?,
    }
    Ok(())
}

// How many bytes still have the value that they had at first.
fn kept(out: &[u8]) -> usize {
    out.iter().filter(|b| **b == 170).count()
}

fn print_fault(rt: &HostRuntime, fault: ReadFault) -> anyhow::Result<()> {
    // want of memory is no refusal
    let refusal = fault.refusal().ok_or(AllocError)?;
    Ok(println!(rt; "{refusal}")?)
}
