// The cells of a table, numbered by rising place.
ghost use Rattle.std.specs.Prelude.{◌≡◌, [], ◌∷◌};
ghost use Rattle.nets.specs.Meaning.{net};
ghost use Rattle.nets.specs.Views.{at};
ghost use Rattle.netfile.specs.Words.{link_word};
ghost use Rattle.netfile.specs.Files.{link_of};
ghost use Rattle.netfile.specs.Writing.{Numbered, by_number, Inside};

use nets::spot::Spot;
use nets::table::Table;

/// A table, and the number of each place's cell: how many cells stand below it.
#[derive(Drop)]
pub(crate) struct Numbering<'a> {
    pub(crate) table: &'a Table,
    numbers: [u16; 1024],
    ghost numbered: { Numbered table.now numbers },
}

impl<'a> Numbering<'a> {
    /// Numbers the cells of a table.
    pub(crate) fn new(table: &'a Table) -> Self
        ensures { result.table.now ≡ table.now }
    {
        let mut numbers = [0; 1024];
        let mut count: u16 = 0;
        for (place, number) in numbers.iter_mut().enumerate() {
            *number = count;
            if table.kind(place as u16).is_some() {
                count += 1;
            }
        }
        Numbering { table, numbers }
    }

    /// The link word of what a spot is linked with.
    pub(crate) fn link_word(&self, spot: Spot) -> u32
        requires { Inside (at spot) }
        ensures { result ∷ [] ≡ link_of (net self.now.table.now) (at spot) }
    {
        self.word_of(self.table.mate(spot).unwrap_or(spot))
    }

    // The link word that names a spot, its cell by number.
    fn word_of(&self, spot: Spot) -> u32
        requires { Inside (at spot) }
        ensures { result ≡ link_word (by_number self.now.numbers (at spot)) }
    {
        match spot {
            Spot::End(e) => 0xE000_0000 + e as u32,
            Spot::Port(place, port) => {
                0xC000_0000 + 4 * self.numbers[place as usize] as u32 + port as u32
            }
        }
    }
}
