// Faults of calls that take memory.
ghost use Rattle.std.specs.Prelude.{◌≡◌};
ghost use Rattle.refusals.specs.Memory.{refusal_or_none};
ghost use Rattle.refusals.specs.declared.memory.OrMemory.TheVariants.{Fault as TheFault, Memory};

use crate::fault::Fault;
use crate::refusal::Refusal;
use std::alloc::AllocError;

/// Why a call that takes memory is refused: a fault, or want of memory.
// no `Option`: `?` asks for a `From` of the fault and of want of memory, and an impl for the library's type may not stand here
#[derive(Clone, Copy, Debug, PartialEq, Eq)]
pub enum OrMemory<F> {
    Fault(F),
    Memory,
}

impl<F: Fault> OrMemory<F> {
    /// The refusal that the fault stands for; want of memory is none.
    pub fn refusal(&self) -> Option<Refusal>
        ensures { result ≡ refusal_or_none F.stands self.now }
    {
        match self {
            OrMemory::Fault(fault) => Some(fault.refusal()),
            OrMemory::Memory => None,
        }
    }
}

impl<F: Fault> From<F> for OrMemory<F> {
    ghost from_gives = { λ e r. r ≡ TheFault e };

    fn from(fault: F) -> OrMemory<F> {
        OrMemory::Fault(fault)
    }
}

impl<F> From<AllocError> for OrMemory<F> {
    ghost from_gives = { λ _ r. r ≡ Memory };

    fn from(_: AllocError) -> OrMemory<F> {
        OrMemory::Memory
    }
}
