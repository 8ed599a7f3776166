// The words of a file, and what each kind of word says.
ghost use Rattle.netfile.specs.Decoding.{WordAt, HeaderOf, LoopsOf, KindOf, SpotOf};
ghost use Rattle.std.specs.Prelude.{◌<◌};

use nets::spot::Spot;

/// Word i, if it is there.
pub(crate) fn word_at(bytes: &[u8], i: u32) -> Option<u32>
    ensures { WordAt bytes.now i result }
{
    let word = bytes.as_chunks::<4>().0.get(i as usize)?;
    Some(u32::from_be_bytes(*word))
}

// A word's kind, its bits 31 and 30, is a number of the format, as its other fields are.

/// The ends and cells that word 0 of a file of this book names: kind 0, the book in bits 29–24, ends in 23–16, cells in 15–0.
pub(crate) fn decode_header(number: u8, word: u32) -> Option<(u8, u16)>
    requires { number < 64 }
    ensures { HeaderOf number word result }
{
    let ends = (word >> 16) % 256;
    let cells = word % 65536;
    (word >> 24 == number as u32 && ends <= 64 && cells <= 1024).then_some((
        ends as u8,
        cells as u16,
    ))
}

/// The loops that word 1 names: kind 1, loops in bits 29–0.
pub(crate) fn decode_loops(word: u32) -> Option<u32>
    ensures { LoopsOf word result }
{
    (word >> 30 == 1).then_some(word % 0x4000_0000)
}

/// The kind that a cell word names: kind 2, the cell's kind in bits 29–24, others zero.
pub(crate) fn decode_cell(word: u32) -> Option<u8>
    ensures { KindOf word result }
{
    (word >> 30 == 2 && word % 0x100_0000 == 0).then_some(((word >> 24) % 64) as u8)
}

/// The spot that a link word names: kind 3; bit 29 set for an end, with its number in bits 15–0; clear for a cell, with the cell in bits 15–2
/// and the port in 1–0; others zero.
pub(crate) fn decode_link(word: u32) -> Option<Spot>
    ensures { SpotOf word result }
{
    let number = word % 65536;
    match word >> 16 {
        0xE000 => Some(Spot::End(number as u16)),
        0xC000 => Some(Spot::Port((number / 4) as u16, (number % 4) as u8)),
        _ => None,
    }
}
