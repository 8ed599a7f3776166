// A file whose words are all right, and whether its links are mutual.
ghost use Rattle.std.specs.Prelude.{◌↔◌, IsTrue};
ghost use Rattle.nets.specs.Views.{at};
ghost use Rattle.netfile.specs.Reading.{Mutual};
ghost use Rattle.netfile.specs.Passes.{WordOf, SpotChecked, LinksChecked};

use crate::file::File;
use books::book::Book;
use nets::spot::Spot;
use refusals::faults::NetFault;
use std::marker::Model;

/// A file whose words are all right, and the word at which each of its cells begins.
#[derive(Drop)]
pub(crate) struct Layout<'a, B: Book> {
    pub(crate) file: File<'a, B>,
    pub(crate) starts: &'a [u16],
}

impl<'a, B: Book> Model for Layout<'a, B> {
    ghost use Rattle.netfile.specs.Layout.{LayoutView, LaidOut};

    ghost Value = { LayoutView B };

    ghost view = { λ l. record { book = l.file.book.now; bytes = l.file.bytes.now; head = l.file.head; starts = l.starts.now } };

    ghost invariant = { λ l. LaidOut (B.meaning l.file.book.now) l.file.bytes.now l.file.head l.starts.now };
}

impl<B: Book> Layout<'_, B> {
    /// The word of a spot's link, if the spot is there.
    pub(crate) fn word_of(&self, spot: Spot) -> Option<u32>
        ensures { WordOf (B.meaning self.now.book) self.now.bytes self.now.head (at spot) result }
    {
        match spot {
            Spot::End(end) => (end < self.file.head.ends as u16).then_some(2 + end as u32),
            Spot::Port(cell, port) => {
                let start = *self.starts.get(cell as usize)? as u32;
                let found = self.file.cell_at(start).ok()?;
                (port <= found.arity).then_some(start + (port as u32 + 1))
            }
        }
    }

    /// Whether the link word of a spot names another spot that names it back.
    fn is_mutual(&self, spot: Spot, word: u32) -> bool
        ensures { IsTrue result ↔ Mutual (B.meaning self.now.book) self.now.bytes self.now.head.ends self.now.head.cells (at spot) word }
    {
        let Ok(target) = self.file.link_at(word) else {
            return false;
        };
        let Some(back) = self.word_of(target) else {
            return false;
        };
        target != spot && self.file.link_at(back).is_ok_and(|named| named == spot)
    }

    /// Looks at the link of a spot, if the spot is there.
    fn check_spot(&self, spot: Spot) -> Result<(), NetFault>
        ensures { SpotChecked (B.meaning self.now.book) self.now.bytes self.now.head (at spot) result }
    {
        match self.word_of(spot) {
            Some(word) if !self.is_mutual(spot, word) => Err(NetFault::NotMutual(word)),
            _ => Ok(()),
        }
    }

    /// Looks at every link, in the order of their words.
    pub(crate) fn check(&self) -> Result<(), NetFault>
        ensures { LinksChecked (B.meaning self.now.book) self.now.bytes self.now.head result }
    {
        let head = self.file.head;
        // spots are numbered in the order of their words
        for i in 0..head.spots() {
            self.check_spot(head.spot(i))?;
        }
        Ok(())
    }
}
