// Sealed nets from files.
ghost use Rattle.engine.specs.Files.{ReadSealed};
ghost use Rattle.netfile.specs.Reading.{OneAnswer};

use crate::net::Net;
use crate::sealed::Sealed;
use books::book::Book;
use netfile::reader::{ReadFault, read};
use std::alloc::Global;

impl<B: Book + Drop> Sealed<B> {
    /// Reads a net file of the book; refused for the one fault that is due.
    pub fn read(heap: Global, book: B, bytes: &[u8]) -> Result<Sealed<B>, ReadFault>
        ensures answer { ReadSealed B.Book.meaning book bytes.now result }
        ensures one { OneAnswer (B.Book.meaning book) bytes.now }
    {
        let table = read(heap, &book, bytes)?;
        Ok(Sealed {
            net: Net { book, table },
        })
    }
}
