// What a net file holds, line by line.
use crate::notation::{Notation, Shown};
use books::book::Book;
use books::combinators::Combinators;
use books::counts::Counts;
use netfile::reader::read;
use nets::spot::Spot;
use nets::table::Table;
use pairs::active::led_by;
use std::alloc::AllocError;
use std::io;

/// Prints what a net file holds, in the book that it names, or its refusal.
pub fn show(rt: &HostRuntime, bytes: &[u8]) -> io::Result<()> {
    match bytes.first() {
        Some(1) => show_in(rt, &Counts, bytes),
        _ => show_in(rt, &Combinators, bytes),
    }
}

fn show_in<B: Notation>(rt: &HostRuntime, book: &B, bytes: &[u8]) -> io::Result<()> {
    match read(rt.alloc(), book, bytes) {
        Ok(table) => show_table(rt, book, &table),
        Err(fault) => {
            // want of memory is no refusal
            let refusal = fault.refusal().ok_or(AllocError)?;
            println!(rt; "{refusal}")
        }
    }
}

fn show_table<B: Notation>(rt: &impl Print, book: &B, table: &Table) -> io::Result<()> {
    println!(rt; "book {}", book.number())?;
    println!(rt; "ends {}", table.ends())?;
    println!(rt; "cells {}", table.cells())?;
    println!(rt; "loops {}", table.loops())?;
    println!(rt; "active pairs {}", active_pairs(book, table))?;
    for end in 0..u16::from(table.ends()) {
        print!(rt; "end {end}")?;
        show_link(rt, table, Spot::End(end))?;
        println!(rt; "")?;
    }
    for place in 0..1024 {
        show_cell(rt, book, table, place)?;
    }
    Ok(())
}

// The cell in a place with its links, if one stands there.
fn show_cell<B: Notation>(rt: &impl Print, book: &B, table: &Table, place: u16) -> io::Result<()> {
    let (Some(kind), Some(arity)) = (table.kind(place), table.arity(place)) else {
        return Ok(());
    };
    print!(rt; "cell {place} {}", book.name(kind))?;
    for port in 0..=arity {
        print!(rt; "  {port}")?;
        show_link(rt, table, Spot::Port(place, port))?;
    }
    println!(rt; "")
}

// What a spot is linked with.
fn show_link(rt: &impl Print, table: &Table, spot: Spot) -> io::Result<()> {
    match table.mate(spot) {
        Some(mate) => print!(rt; " - {}", Shown(mate)),
        None => Ok(()),
    }
}

// How many active pairs the net has: each is counted at its lower cell.
fn active_pairs<B: Book>(book: &B, table: &Table) -> usize {
    (0..1024)
        .filter(|&place| led_by(book, table, place).is_some())
        .count()
}
