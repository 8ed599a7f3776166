// Sealed nets from texts.
ghost use Rattle.engine.specs.Texts.{SealedFrom};
ghost use Rattle.terms.specs.Texts.{OneAnswer};

use crate::net::Net;
use crate::sealed::Sealed;
use books::combinators::Combinators;
use compile::compiler::{Compiled, compile};
use compile::fault::CompileFault;
use std::alloc::Global;
use terms::items::Items;

impl Sealed<Combinators> {
    /// Compiles the text of a linear term to its net, and lists its items in text order; refused for the one fault that is due.
    pub fn compile(heap: Global, text: &[u8]) -> Result<(Sealed<Combinators>, Items), CompileFault>
        ensures answer { SealedFrom text.now result }
        ensures one { OneAnswer text.now }
    {
        let Compiled { table, items } = compile(heap, text)?;
        let net = Net {
            book: Combinators,
            table,
        };
        Ok((Sealed { net }, items))
    }
}
