// The compiler from texts to nets.
ghost use Rattle.terms.specs.Texts.{OneAnswer};
ghost use Rattle.compile.specs.Compiling.{Answered};

use crate::builder::Builder;
use crate::fault::CompileFault;
use nets::draft::Draft;
use nets::table::Table;
use std::alloc::Global;
use terms::items::Items;
use terms::survey::survey_text;

/// The net of a text, and its items in text order: the net's end k is item k.
#[derive(Drop)]
pub struct Compiled {
    pub table: Table,
    pub items: Items,
}

/// Compiles the text of a linear term to its net, with its cells in places 0, 1, 2 and on in text order.
/// It refuses all texts that are no linear term within the limits, for the one fault that is due.
pub fn compile(heap: Global, text: &[u8]) -> Result<Compiled, CompileFault>
    ensures answer { Answered text.now result }
    ensures one { OneAnswer text.now }
{
    let size = survey_text(text)?;
    let draft = Draft::new(heap, size.items as u8 + 1, 0)?;
    let mut builder = Builder::new(text, draft, Items::new(heap)?);
    builder.walk();
    let Builder { draft, items, .. } = builder;
    let table = draft.seal().unwrap();
    Ok(Compiled { table, items })
}
