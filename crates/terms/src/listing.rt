// How a list of items is made, filled and read.
ghost use Rattle.std.specs.Prelude.{◌≡◌, [], length, IfOk};
ghost use Rattle.terms.specs.Spelling.{spelled};
ghost use Rattle.terms.specs.Listing.{listed, ItemRead, Got, Added};

use crate::item::Item;
use crate::items::Items;
use crate::letters::word_at;
use refusals::faults::TextFault;
use std::alloc::{AllocError, Global};

impl Item {
    // The item that the bytes spell; refused where they spell none.
    fn read(bytes: &[u8]) -> Result<Item, TextFault>
        ensures { ItemRead bytes.now result }
    {
        let word = word_at(bytes, 0, b'A');
        if word.is_empty() || word.len() < bytes.len() {
            return Err(TextFault::Grammar(word.len() as u32));
        }
        let mut letters = [0; 8];
        letters[..word.len()].copy_from_slice(word);
        Ok(Item {
            letters,
            len: word.len() as u8,
        })
    }

    /// The letters of the item.
    pub fn spelling(&self) -> &[u8]
        ensures { result.now ≡ spelled self.now }
    {
        &self.letters[0..self.len as usize]
    }
}

impl Items {
    /// A list with no items.
    pub fn new(heap: Global) -> Result<Items, AllocError>
        ensures { IfOk result (λ s. listed s ≡ []) }
    {
        let items = Vec::with_capacity(heap, 63)?;
        Ok(Items { items })
    }

    /// How many items are listed.
    pub fn len(&self) -> usize
        ensures { result ≡ length (listed self.now) }
    {
        self.items.len()
    }

    /// Item i of the list, counted from 0.
    pub fn get(&self, i: usize) -> Option<&[u8]>
        ensures { Got (listed self.now) i result }
    {
        self.items.get(i).map(Item::spelling)
    }

    /// Adds an item at the end; refused where the bytes spell no item, or stand in the list, or 63 items are listed.
    pub fn add(&mut self, item: &[u8]) -> Result<(), TextFault>
        ensures { Added self.old item.now result self.new }
    {
        let new = Item::read(item)?;
        if self.items.contains(&new) {
            return Err(TextFault::UsedTwice(0));
        }
        if self.items.len() >= 63 {
            return Err(TextFault::TooLarge);
        }
        self.items.push_reserved(new);
        Ok(())
    }
}
