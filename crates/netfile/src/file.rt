// A file whose first two words are right: its cell words and its link words.
ghost use Rattle.std.specs.Prelude.{◌^◌, ◌<◌};
ghost use Rattle.netfile.specs.Reading.{Headed};

use crate::decode::{decode_cell, decode_link, word_at};
use crate::head::Head;
use books::book::Book;
use books::table::Cell;
use nets::spot::Spot;
use refusals::faults::FileFault;

/// A file whose length and first two words are right, and its book.
#[derive(Drop)]
pub(crate) struct File<'a, B: Book> {
    pub(crate) book: &'a B,
    pub(crate) bytes: &'a [u8],
    pub(crate) head: Head,
    ghost headed: { Headed (B.meaning book.now) bytes.now head.ends head.cells head.loops },
}

impl<B: Book> File<'_, B> {
    ghost use Rattle.netfile.specs.Passes.{CellRead, LinkRead, LinksRead, CellChecked, WordsRead};

    /// The cell at a word, with the arity that the book gives its kind.
    pub(crate) fn cell_at(&self, at: u32) -> Result<Cell, FileFault>
        ensures { CellRead (B.meaning self.now.book.now) self.now.bytes.now at result }
    {
        let word = word_at(self.bytes, at).ok_or(FileFault::Words(at))?;
        let kind = decode_cell(word).ok_or(FileFault::BadCell(at))?;
        let arity = self.book.arity(kind).ok_or(FileFault::BadCell(at))?;
        Ok(Cell { kind, arity })
    }

    /// The spot that the link word at a word names.
    pub(crate) fn link_at(&self, at: u32) -> Result<Spot, FileFault>
        ensures { LinkRead self.now.bytes.now self.now.head at result }
    {
        let word = word_at(self.bytes, at).ok_or(FileFault::Words(at))?;
        match decode_link(word) {
            Some(spot) if self.head.can_name(spot) => Ok(spot),
            _ => Err(FileFault::BadLink(at)),
        }
    }

    /// Looks at the link words from one word to before another one.
    fn check_links(&self, from: u32, to: u32) -> Result<(), FileFault>
        ensures { LinksRead self.now.bytes.now self.now.head from to result }
    {
        // a word is named by its number, which is what a fault tells
        for at in from..to {
            self.link_at(at)?;
        }
        Ok(())
    }

    /// Looks at the cell at a word and at its links, and answers the word after them.
    fn check_cell(&self, at: u32) -> Result<u32, FileFault>
        requires { at < 2 ^ 16 }
        ensures { CellChecked (B.meaning self.now.book.now) self.now.bytes.now self.now.head at result }
    {
        let cell = self.cell_at(at)?;
        let next = at + (cell.arity as u32 + 2);
        self.check_links(at + 1, next)?;
        Ok(next)
    }

    /// Looks at every word after the first two, and answers the word at which each cell begins.
    pub(crate) fn find_cells(&self) -> Result<[u16; 1024], FileFault>
        ensures { WordsRead (B.meaning self.now.book.now) self.now.bytes.now self.now.head result }
    {
        let mut at = 2 + self.head.ends as u32;
        self.check_links(2, at)?;
        let mut starts = [0; 1024];
        for start in &mut starts[..self.head.cells as usize] {
            *start = at as u16;
            at = self.check_cell(at)?;
        }
        match word_at(self.bytes, at) {
            Some(_) => Err(FileFault::Words(at)),
            None => Ok(starts),
        }
    }
}
