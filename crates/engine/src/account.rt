// Calls of a run, with the account that they make.
ghost use Rattle.engine.specs.Accounts.{Led, Accounted};

use crate::run::Run;
use books::book::Book;
use strategies::strategy::Strategy;

/// Draws a pair and puts it back, draws again and rewrites, and then drives: the account of these calls leads from the run as it was to the run as it is.
// what a drive answers: two plain numbers
pub fn take_turns<B: Book, S: Strategy>(run: &mut Run<B, S>, limit: u32) -> (u32, u8)
    ensures { Accounted B.Book.meaning S.Strategy run.old limit result run.new }
{
    try_pair(run);
    rewrite_one(run);
    run.drive(limit)
}

// Draws a pair and puts it back.
fn try_pair<B: Book, S: Strategy>(run: &mut Run<B, S>)
    ensures { Led B.Book.meaning S.Strategy run.old run.new }
{
    if let Ok(slip) = run.draw() {
        run.put_back(slip);
    }
}

// Draws a pair and rewrites it, or puts it back where that is refused.
fn rewrite_one<B: Book, S: Strategy>(run: &mut Run<B, S>)
    ensures { Led B.Book.meaning S.Strategy run.old run.new }
{
    if let Ok(slip) = run.draw() {
        if let Err((_, slip)) = run.rewrite(slip) {
            run.put_back(slip);
        }
    }
}
