// A survey of a whole file: every check, and no allocation.
ghost use Rattle.std.specs.Prelude.{◌≡◌, take};
ghost use Rattle.netfile.specs.Reading.{Headed, Surveyed, OneAnswer};
ghost use Rattle.netfile.specs.Passes.{Laid};
ghost use Rattle.netfile.specs.Refusals.{survey_refusal};
ghost use Rattle.netfile.specs.declared.survey.SurveyFault.TheVariants.{File, Net};

use crate::file::File;
use crate::head::Head;
use crate::layout::Layout;
use books::book::Book;
use refusals::fault::Fault;
use refusals::faults::{FileFault, NetFault};
use refusals::refusal::Refusal;

/// A file with which nothing is wrong: its numbers, and the word at which each cell begins.
// An array, of which the first `head.cells` entries are told, as no `ArrayVec` is `Copy`.
#[derive(Clone, Copy)]
pub struct Survey {
    pub head: Head,
    pub starts: [u16; 1024],
}

impl Survey {
    /// The file as surveyed.
    pub(crate) fn layout<'a, B: Book>(&'a self, book: &'a B, bytes: &'a [u8]) -> Layout<'a, B>
        requires headed { Headed (B.meaning book.now) bytes.now self.now.head.ends self.now.head.cells self.now.head.loops }
        requires laid { Laid (B.meaning book.now) bytes.now self.now.head self.now.starts }
        ensures { result ≡ record { book = book.now; bytes = bytes.now; head = self.now.head; starts = take self.now.head.cells self.now.starts } }
    {
        let head = self.head;
        Layout {
            file: File { book, bytes, head },
            starts: &self.starts[..head.cells as usize],
        }
    }
}

/// What is wrong with a file: a fault of the file's words, or one of its links.
#[derive(Clone, Copy, Debug, PartialEq, Eq)]
pub enum SurveyFault {
    File(FileFault),
    Net(NetFault),
}

impl From<FileFault> for SurveyFault {
    ghost from_gives = { λ e r. r ≡ File e };

    fn from(e: FileFault) -> SurveyFault {
        SurveyFault::File(e)
    }
}

impl From<NetFault> for SurveyFault {
    ghost from_gives = { λ e r. r ≡ Net e };

    fn from(e: NetFault) -> SurveyFault {
        SurveyFault::Net(e)
    }
}

impl Fault for SurveyFault {
    ghost stands = { survey_refusal };

    fn refusal(&self) -> Refusal {
        match self {
            SurveyFault::File(fault) => fault.refusal(),
            SurveyFault::Net(fault) => fault.refusal(),
        }
    }
}

/// Looks at every word of a file: the length, the first two words, the words of ends and cells in their order, and then the links.
/// It answers the numbers of a file with which nothing is wrong, or else the one fault that is due.
pub fn survey_file<B: Book>(book: &B, bytes: &[u8]) -> Result<Survey, SurveyFault>
    ensures answer { Surveyed (B.meaning book.now) bytes.now result }
    ensures one { OneAnswer (B.meaning book.now) bytes.now }
{
    let head = Head::read(book, bytes)?;
    let starts = File { book, bytes, head }.find_cells()?;
    let survey = Survey { head, starts };
    survey.layout(book, bytes).check()?;
    Ok(survey)
}
