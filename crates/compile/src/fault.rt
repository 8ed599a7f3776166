// Why a text is not compiled.

use refusals::faults::TextFault;
use refusals::memory::OrMemory;

/// Why a text is not compiled: a fault of the text, or want of memory.
pub type CompileFault = OrMemory<TextFault>;
