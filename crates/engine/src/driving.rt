// Driving: drawing and rewriting, so many times.
ghost use Rattle.engine.specs.Calls.{Drives};

use crate::run::Run;
use books::book::Book;
use refusals::fault::Fault;
use strategies::strategy::Strategy;

impl<B: Book, S: Strategy> Run<B, S> {
    /// Draws and rewrites until the limit is done, draw is refused, or rewrite is refused; then the pair is put back.
    /// Answers how many it did, and why it stopped: 0 for the limit, else 14, 16 or 17.
    // the project's rule: a drive answers two plain numbers
    pub fn drive(&mut self, limit: u32) -> (u32, u8)
        ensures { Drives B.Book.meaning S.Strategy self.old limit result self.new }
    {
        // counted, since the answer says how many were done
        for done in 0..limit {
            let slip = match self.draw() {
                Ok(slip) => slip,
                Err(fault) => return (done, fault.refusal().number),
            };
            if let Err((fault, slip)) = self.rewrite(slip) {
                self.put_back(slip);
                return (done, fault.refusal().number);
            }
        }
        (limit, 0)
    }
}
