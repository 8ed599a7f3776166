// The faults of each layer. The layer belongs to the case, not to the number: 7 is of the file layer from the writer, and of the reading layer from reading back.
ghost use Rattle.refusals.specs.Faults.{order_refusal, text_refusal, file_refusal, net_refusal, strategy_refusal, run_refusal, reading_refusal};

use crate::fault::Fault;
use crate::layer::Layer;
use crate::refusal::Refusal;

/// Why a program's order is refused.
#[derive(Clone, Copy, Debug, PartialEq, Eq)]
pub enum OrderFault {
    /// There is no strategy line.
    NoStrategy,
}

/// Why a text is refused as a term; places count bytes.
#[derive(Clone, Copy, Debug, PartialEq, Eq)]
pub enum TextFault {
    /// The text is over 8,192 bytes long.
    TooLong,
    /// The first byte outside the grammar, or the text's length if it ends early.
    Grammar(u32),
    /// A bound name with no abstraction.
    Unbound(u32),
    /// The second use of a variable or an item.
    UsedTwice(u32),
    /// The name, at its abstraction, of a variable that is never used.
    Unused(u32),
    /// Over 63 items or 1,024 cells.
    TooLarge,
}

/// Why a file is refused, or not written; places count words.
#[derive(Clone, Copy, Debug, PartialEq, Eq)]
pub enum FileFault {
    /// The output buffer is under 16,648 bytes.
    NoRoom,
    /// The file is under 8 bytes long, or its length is no multiple of 4.
    Length,
    /// Word 0 or 1 is of a wrong kind, of another book, or names too many ends or cells.
    Header(u32),
    /// A bad cell word, or one of a kind that is not in the book.
    BadCell(u32),
    /// A bad link word, or one that names an end or a cell that is not there or the port field 3.
    BadLink(u32),
    /// The first word that is missing or left over.
    Words(u32),
}

/// Why links are refused as a net's; places count words of the file.
#[derive(Clone, Copy, Debug, PartialEq, Eq)]
pub enum NetFault {
    /// A link to itself, beyond the arity of its target, or not named back.
    NotMutual(u32),
}

/// Why a strategy refuses.
#[derive(Clone, Copy, Debug, PartialEq, Eq)]
pub enum StrategyFault {
    /// No pair waits.
    Empty,
    /// 512 pairs or more wait.
    Full,
}

/// Why a run refuses.
#[derive(Clone, Copy, Debug, PartialEq, Eq)]
pub enum RunFault {
    /// The slip's stamp or pair is not out here.
    Foreign,
    /// The rule's new cells outnumber the vacant places plus two.
    NoPlace,
    /// 100,000,000 interactions are made, or there are over 1,073,741,821 loops.
    Spent,
    /// A pair still waits or is out.
    Busy,
}

/// Why a net is not read back as a term.
#[derive(Clone, Copy, Debug, PartialEq, Eq)]
pub enum ReadingFault {
    /// The output buffer is under 8,192 bytes.
    NoRoom,
    /// No linear term has this net.
    NoTerm,
    /// Fewer items are listed than the net has ends after end 0.
    FewItems,
}

impl Fault for OrderFault {
    ghost stands = { order_refusal };

    fn refusal(&self) -> Refusal {
        match self {
            OrderFault::NoStrategy => Refusal::new(22, Layer::Order, 0),
        }
    }
}

impl Fault for TextFault {
    ghost stands = { text_refusal };

    fn refusal(&self) -> Refusal {
        let (number, place) = match self {
            TextFault::TooLong => (1, 8192),
            TextFault::Grammar(at) => (2, *at),
            TextFault::Unbound(at) => (3, *at),
            TextFault::UsedTwice(at) => (4, *at),
            TextFault::Unused(at) => (5, *at),
            TextFault::TooLarge => (6, 0),
        };
        Refusal::new(number, Layer::Text, place)
    }
}

impl Fault for FileFault {
    ghost stands = { file_refusal };

    fn refusal(&self) -> Refusal {
        let (number, place) = match self {
            FileFault::NoRoom => (7, 0),
            FileFault::Length => (8, 0),
            FileFault::Header(word) => (9, *word),
            FileFault::BadCell(word) => (10, *word),
            FileFault::BadLink(word) => (11, *word),
            FileFault::Words(word) => (13, *word),
        };
        Refusal::new(number, Layer::File, place)
    }
}

impl Fault for NetFault {
    ghost stands = { net_refusal };

    fn refusal(&self) -> Refusal {
        match self {
            NetFault::NotMutual(word) => Refusal::new(12, Layer::Net, *word),
        }
    }
}

impl Fault for StrategyFault {
    ghost stands = { strategy_refusal };

    fn refusal(&self) -> Refusal {
        let number = match self {
            StrategyFault::Empty => 14,
            StrategyFault::Full => 21,
        };
        Refusal::new(number, Layer::Strategy, 0)
    }
}

impl Fault for RunFault {
    ghost stands = { run_refusal };

    fn refusal(&self) -> Refusal {
        let number = match self {
            RunFault::Foreign => 15,
            RunFault::NoPlace => 16,
            RunFault::Spent => 17,
            RunFault::Busy => 18,
        };
        Refusal::new(number, Layer::Run, 0)
    }
}

impl Fault for ReadingFault {
    ghost stands = { reading_refusal };

    fn refusal(&self) -> Refusal {
        let number = match self {
            ReadingFault::NoRoom => 7,
            ReadingFault::NoTerm => 19,
            ReadingFault::FewItems => 20,
        };
        Refusal::new(number, Layer::Reading, 0)
    }
}
