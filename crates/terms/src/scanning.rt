// Reading a text byte by byte by the grammar, linear or not.
ghost use Rattle.std.specs.Prelude.{◌≡◌, ℕ, ◌<◌, ◌≤◌, false, List, [], length};
ghost use Rattle.arrayvec.specs.ArrayVec.{array_vec_len};
ghost use Rattle.terms.specs.Letters.{letter};
ghost use Rattle.terms.specs.Named.{Named};
ghost use Rattle.terms.specs.declared.scanner.Mode.{Mode};
ghost use Rattle.terms.specs.Scanning.{Frame, State, want, followed, spaced, closed, step, flags, first_letter, spelling, Shows, Came, Ending, Scanned};

use crate::letters::is_letter;
use crate::scanner::{Kind, Mode, Scanner};
use arrayvec::ArrayVec;

/// Where the bytes leave the grammar: the first byte outside it, or the text's length if it ends early; none if they are the text of a term.
pub(crate) fn find_fault(text: &[u8]) -> Option<u32>
    requires { length text.now ≤ 8192 }
    ensures { Scanned text.now result }
{
    let mut scanner = Scanner::new();
    // beside the scanner, so that it stays in a register
    let mut mode = Mode::Term;
    for (i, byte) in text.iter().enumerate() {
        let Some(next) = scanner.step(mode, *byte) else {
            return Some(i as u32);
        };
        mode = next;
    }
    (!scanner.is_whole(mode)).then_some(text.len() as u32)
}

impl Kind {
    // Whether the byte is one of the letters that the word is spelt with.
    fn is_spelt_with(self, byte: u8) -> bool
        ensures { result ≡ letter (first_letter self) byte }
    {
        match self {
            Kind::Binder | Kind::Name => is_letter(byte, b'a'),
            Kind::Item => is_letter(byte, b'A'),
        }
    }
}

impl Scanner {
    // A scanner before the first byte.
    fn new() -> Scanner
        ensures { Shows Mode.Term result (want []) }
    {
        Scanner {
            arguments: ArrayVec::new(),
        }
    }

    // Whether the text may end here.
    fn is_whole(&self, mode: Mode) -> bool
        ensures { (s : State) → Shows mode self.now s → Ending result s }
    {
        match mode {
            Mode::Term => false,
            Mode::Spelling(word, _) => word != Kind::Binder && self.arguments.is_empty(),
            Mode::Done => self.arguments.is_empty(),
        }
    }

    // Reads one byte more, and answers the mode after it; none where no text of the grammar goes on so.
    fn step(&mut self, mode: Mode, byte: u8) -> Option<Mode>
        requires { array_vec_len self.old.arguments < 8192 }
        ensures { (s : State) → Shows mode self.old s → Came result self.new (step s byte) }
    {
        match mode {
            Mode::Term => self.begin(byte),
            Mode::Spelling(word, letters) => self.spell(word, letters, byte),
            Mode::Done => self.follow(byte),
        }
    }

    // Reads the first byte of a term.
    fn begin(&mut self, byte: u8) -> Option<Mode>
        requires { array_vec_len self.old.arguments < 8192 }
        ensures { (ks : List Frame) → self.old.arguments.items ≡ flags ks → Came result self.new (step (want ks) byte) }
    {
        match byte {
            b'\\' => Some(Mode::Spelling(Kind::Binder, 0)),
            b'(' => {
                self.arguments.push(false);
                Some(Mode::Term)
            }
            b'a'..=b'z' => Some(Mode::Spelling(Kind::Name, 1)),
            b'A'..=b'Z' => Some(Mode::Spelling(Kind::Item, 1)),
            _ => None,
        }
    }

    // Reads a byte of a word, of which some letters are read, or the one after it.
    fn spell(&mut self, word: Kind, letters: u8, byte: u8) -> Option<Mode>
        ensures { (w : List ℕ) (ks : List Frame) → letters ≡ length w → self.old.arguments.items ≡ flags ks → Came result self.new (step (spelling word w ks) byte) }
    {
        if !word.is_spelt_with(byte) {
            return self.end_word(word, letters, byte);
        }
        (letters < 8).then(|| Mode::Spelling(word, letters + 1))
    }

    // Reads the byte after a word, of which some letters are read.
    fn end_word(&mut self, word: Kind, letters: u8, byte: u8) -> Option<Mode>
        requires { letter (first_letter word) byte ≡ false }
        ensures { (w : List ℕ) (ks : List Frame) → letters ≡ length w → self.old.arguments.items ≡ flags ks → Came result self.new (step (spelling word w ks) byte) }
    {
        if word != Kind::Binder {
            return self.follow(byte);
        }
        (byte == b'.' && letters > 0).then_some(Mode::Term)
    }

    // Reads the byte after a term.
    fn follow(&mut self, byte: u8) -> Option<Mode>
        ensures { (t : Named) (ks : List Frame) → self.old.arguments.items ≡ flags ks → Came result self.new (followed t ks byte) }
    {
        match byte {
            b' ' => self.space(),
            b')' => self.close(),
            _ => None,
        }
    }

    // Goes on to the argument of the innermost open application; none where its function was read already.
    fn space(&mut self) -> Option<Mode>
        ensures { (t : Named) (ks : List Frame) → self.old.arguments.items ≡ flags ks → Came result self.new (spaced t ks) }
    {
        if self.arguments.last().copied() != Some(false) {
            return None;
        }
        let last = self.arguments.len() - 1;
        self.arguments[last] = true;
        Some(Mode::Term)
    }

    // Closes the innermost open application; none where its argument was not read.
    fn close(&mut self) -> Option<Mode>
        ensures { (t : Named) (ks : List Frame) → self.old.arguments.items ≡ flags ks → Came result self.new (closed t ks) }
    {
        (self.arguments.pop() == Some(true)).then_some(Mode::Done)
    }
}
