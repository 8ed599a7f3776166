// What may be done with a net that no run works on: it may be written and compared.
ghost use Rattle.std.specs.Prelude.{◌≡◌, Decides};
ghost use Rattle.calculus.specs.Alike.{Alike};
ghost use Rattle.netfile.specs.Writing.{Written, Tells as FileTells};
ghost use Rattle.engine.specs.States.{held};

use crate::net::Net;
use crate::normal::Normal;
use crate::sealed::Sealed;
use alike::is_alike;
use books::book::Book;
use netfile::writer::write;
use refusals::faults::FileFault;

// one line for each state; a trait for both would be longer
impl<B> Sealed<B> {
    /// The sealed net.
    pub fn net(&self) -> &Net<B>
        ensures { result.now ≡ self.now.net }
    {
        &self.net
    }
}

impl<B> Normal<B> {
    /// The normal net.
    pub fn net(&self) -> &Net<B>
        ensures { result.now ≡ self.now.net }
    {
        &self.net
    }
}

impl<B: Book> Net<B> {
    /// Writes the net's file to a buffer and answers its length; `NoRoom` where the buffer is under 16,648 bytes.
    pub fn write(&self, out: &mut [u8]) -> Result<usize, FileFault>
        ensures written { Written (B.Book.meaning self.now.book) self.now.table out.old result out.new }
        ensures tells { FileTells (B.Book.meaning self.now.book) self.now.table }
    {
        write(&self.book, &self.table, out)
    }

    /// Whether two nets of one book are alike.
    pub fn alike(&self, other: &Net<B>) -> bool
        ensures { Decides result (Alike (held self.now) (held other.now)) }
    {
        is_alike(&self.table, &other.table)
    }
}
