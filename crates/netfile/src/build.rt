// Filling a draft from a file.
ghost use Rattle.std.specs.Prelude.{◌≡◌};
ghost use Rattle.nets.specs.Drafts.{plan};
ghost use Rattle.nets.specs.Views.{at};
ghost use Rattle.netfile.specs.Building.{Celled, Naming};

use crate::layout::Layout;
use books::book::Book;
use nets::draft::Draft;
use nets::spot::Spot;

impl<B: Book> Layout<'_, B> {
    /// Puts the cells of the file into a draft, cell i into place i.
    pub(crate) fn add_cells(&self, draft: &mut Draft)
        requires { Celled (B.meaning self.now.book) self.now 0 (plan draft.old) }
        ensures { Celled (B.meaning self.now.book) self.now self.now.head.cells (plan draft.new) }
    {
        for start in self.starts {
            let cell = self.file.cell_at(*start as u32).unwrap();
            draft.add_cell(cell.kind, cell.arity).unwrap();
        }
    }

    /// Names the link of a spot in a draft as the file does, if the spot is there.
    fn name_link(&self, draft: &mut Draft, spot: Spot)
        requires { Celled (B.meaning self.now.book) self.now self.now.head.cells (plan draft.old) }
        ensures { Naming (B.meaning self.now.book) self.now (λ x. x ≡ at spot) (plan draft.old) (plan draft.new) }
    {
        if let Some(word) = self.word_of(spot) {
            let target = self.file.link_at(word).unwrap();
            draft.name_link(spot, target).unwrap();
        }
    }

    /// Names every link in a draft as the file does.
    pub(crate) fn name_links(&self, draft: &mut Draft)
        requires { Celled (B.meaning self.now.book) self.now self.now.head.cells (plan draft.old) }
        ensures { Naming (B.meaning self.now.book) self.now (λ _. Unit {0}) (plan draft.old) (plan draft.new) }
    {
        let head = self.file.head;
        // spots are numbered in the order of their words
        for i in 0..head.spots() {
            self.name_link(draft, head.spot(i));
        }
    }
}
