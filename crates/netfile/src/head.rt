// The numbers of a file.
ghost use Rattle.std.specs.Prelude.{◌≡◌, ◌+◌, ◌*◌, ◌^◌, ◌<◌, ◌≤◌, ◌↔◌, IsTrue};
ghost use Rattle.nets.specs.Views.{at};
ghost use Rattle.netfile.specs.Faults.{Nameable};

use crate::decode::{decode_header, decode_loops, word_at};
use books::book::Book;
use nets::spot::Spot;
use refusals::faults::FileFault;

/// What the first two words of a file say: how many ends, cells and loops there are.
#[derive(Clone, Copy, PartialEq, Eq, Debug)]
pub struct Head {
    pub ends: u8,
    pub cells: u16,
    pub loops: u32,
    ghost few: { ends ≤ 64 },
    ghost small: { cells ≤ 1024 },
    ghost counted: { loops < 2 ^ 30 },
}

impl Head {
    ghost use Rattle.netfile.specs.Passes.{HeadRead, nth_spot};

    /// Reads the first two words of a file, unless its length is wrong.
    pub(crate) fn read<B: Book>(book: &B, bytes: &[u8]) -> Result<Head, FileFault>
        ensures { HeadRead (B.meaning book.now) bytes.now result }
    {
        if bytes.len() % 4 != 0 {
            return Err(FileFault::Length);
        }
        let zeroth = word_at(bytes, 0).ok_or(FileFault::Length)?;
        let first = word_at(bytes, 1).ok_or(FileFault::Length)?;
        let (ends, cells) = decode_header(book.number(), zeroth).ok_or(FileFault::Header(0))?;
        let loops = decode_loops(first).ok_or(FileFault::Header(1))?;
        Ok(Head { ends, cells, loops })
    }

    /// Whether a link word may name the spot: an end that is there, or a port below 3 of a cell that is there.
    pub(crate) fn can_name(self, spot: Spot) -> bool
        ensures { IsTrue result ↔ Nameable self.ends self.cells (at spot) }
    {
        match spot {
            Spot::End(end) => end < self.ends as u16,
            Spot::Port(cell, port) => cell < self.cells && port < 3,
        }
    }

    /// How many spots a file can name.
    pub(crate) fn spots(self) -> u16
        ensures { result ≡ self.ends + 3 * self.cells }
    {
        self.ends as u16 + 3 * self.cells
    }

    /// Spot i in the order of their words: the ends, then the ports 0, 1 and 2 of each cell.
    pub(crate) fn spot(self, i: u16) -> Spot
        ensures { at result ≡ nth_spot self.ends i }
    {
        let ends = self.ends as u16;
        if i < ends {
            Spot::End(i)
        } else {
            Spot::Port((i - ends) / 3, ((i - ends) % 3) as u8)
        }
    }
}
