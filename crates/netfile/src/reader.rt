// The reader of net files.
ghost use Rattle.netfile.specs.Reading.{Answered, OneAnswer};

use crate::survey::{SurveyFault, survey_file};
use books::book::Book;
use nets::draft::Draft;
use nets::table::Table;
use refusals::memory::OrMemory;
use std::alloc::Global;

/// Why bytes are not read as a net: a fault of the file's words, one of its links, or want of memory.
pub type ReadFault = OrMemory<SurveyFault>;

/// Reads a net file of the book: cell i of the file into place i. It refuses all bytes that no net of the book has for its file,
/// for the one fault that is due.
pub fn read<B: Book>(heap: Global, book: &B, bytes: &[u8]) -> Result<Table, ReadFault>
    ensures answer { Answered (B.meaning book.now) bytes.now result }
    ensures one { OneAnswer (B.meaning book.now) bytes.now }
{
    let survey = survey_file(book, bytes)?;
    let mut draft = Draft::new(heap, survey.head.ends, survey.head.loops)?;
    let layout = survey.layout(book, bytes);
    layout.add_cells(&mut draft);
    layout.name_links(&mut draft);
    Ok(draft.seal().unwrap())
}
