// Writing a net file.
ghost use Rattle.std.specs.Prelude.{◌+◌, ◌*◌, ◌<◌, ◌≤◌, [], ◌∷◌, length};
ghost use Rattle.nets.specs.Meaning.{net};
ghost use Rattle.netfile.specs.Writing.{room, words_of, Written, Tells, Put, Puts, end_words, port_words, place_words, all_cell_words};

use crate::numbering::Numbering;
use books::book::Book;
use nets::spot::Spot;
use nets::table::Table;
use refusals::faults::FileFault;

/// How many bytes the buffer must have, whatever the net's size.
pub const FILE_ROOM: usize = 16_648;

/// Writes the file of the table's net to the front of the buffer, and answers its length in bytes.
/// Refuses a buffer under 16,648 bytes, whatever the net's size, and then changes no byte.
pub fn write<B: Book>(book: &B, table: &Table, out: &mut [u8]) -> Result<usize, FileFault>
    ensures written { Written (B.meaning book.now) table.now out.old result out.new }
    ensures tells { Tells (B.meaning book.now) table.now }
{
    if out.len() < FILE_ROOM {
        return Err(FileFault::NoRoom);
    }
    Ok(put_net(out, book.number(), table))
}

// Writes all words of a table's file at the front of the buffer, and answers the next byte.
fn put_net(out: &mut [u8], number: u8, table: &Table) -> usize
    requires { room ≤ length out.old }
    ensures { Put out.old 0 (words_of number table.now) out.new result }
{
    let numbering = Numbering::new(table);
    let head = number as u32 * 0x100_0000 + table.ends() as u32 * 0x1_0000 + table.cells() as u32;
    let mut writer = Writer { out, next: 0 };
    writer.put(head);
    writer.put(0x4000_0000 + table.loops());
    writer.put_ends(&numbering);
    writer.put_cells(&numbering);
    writer.next
}

/// A buffer, and the byte at which its next word begins.
#[derive(Drop)]
struct Writer<'a> {
    out: &'a mut [u8],
    next: usize,
}

impl Writer<'_> {
    // Writes one word.
    fn put(&mut self, word: u32)
        requires { self.old.next + 4 ≤ length self.old.out.now }
        ensures { Puts self.old (word ∷ []) self.new }
    {
        let start = self.next;
        self.next = start + 4;
        self.out[start..start + 4].copy_from_slice(&word.to_be_bytes());
    }

    // Writes the link words of the ends.
    fn put_ends(&mut self, numbering: &Numbering)
        requires { self.old.next + 4 * (net numbering.now.table.now).ends ≤ length self.old.out.now }
        ensures { Puts self.old (end_words numbering.now.table.now) self.new }
    {
        for e in 0..u16::from(numbering.table.ends()) {
            self.put(numbering.link_word(Spot::End(e)));
        }
    }

    // Writes the words of all cells, by rising place.
    fn put_cells(&mut self, numbering: &Numbering)
        requires { self.old.next + 16 * 1024 ≤ length self.old.out.now }
        ensures { Puts self.old (all_cell_words numbering.now.table.now) self.new }
    {
        // by number: a table has no iterator over its ends, places and ports
        for place in 0..1024u16 {
            self.put_cell(numbering, place);
        }
    }

    // Writes the words of the cell in a place, if one stands there.
    fn put_cell(&mut self, numbering: &Numbering, place: u16)
        requires inside { place < 1024 }
        requires fits { self.old.next + 16 ≤ length self.old.out.now }
        ensures { Puts self.old (place_words numbering.now.table.now place) self.new }
    {
        let (Some(kind), Some(arity)) = (numbering.table.kind(place), numbering.table.arity(place))
        else {
            return;
        };
        // No book has a kind past 63; of one, the high bits fall off.
        self.put(0x8000_0000u32.wrapping_add(kind as u32 * 0x100_0000));
        self.put_ports(numbering, place, arity + 1);
    }

    // Writes the link words of the first ports of a cell.
    fn put_ports(&mut self, numbering: &Numbering, place: u16, ports: u8)
        requires inside { place < 1024 }
        requires fits { self.old.next + 4 * ports ≤ length self.old.out.now }
        ensures { Puts self.old (port_words numbering.now.table.now place ports) self.new }
    {
        for j in 0..ports {
            self.put(numbering.link_word(Spot::Port(place, j)));
        }
    }
}
