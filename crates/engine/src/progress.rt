// How two runs stand to each other.
ghost use Rattle.engine.specs.Agreement.{AnyTwoAgree, Compared};

use crate::run::Run;
use books::book::Book;
use std::cmp::Ordering;
use strategies::strategy::Strategy;

/// How one run stands to another: so many interactions behind it, level with it, or so many ahead.
#[derive(Clone, Copy, PartialEq, Eq, Debug)]
pub enum Progress {
    Behind(u32),
    Level,
    Ahead(u32),
}

/// How the second run stands to the first. Any two runs agree, whatever their strategies and whatever was called.
pub fn compare_progress<B: Book, S: Strategy, T: Strategy>(
    first: &Run<B, S>,
    second: &Run<B, T>,
) -> Progress
    ensures answer { Compared first.now.count second.now.count result }
    ensures agree { AnyTwoAgree B.Book.meaning S.Strategy T.Strategy first.now second.now }
{
    match second.count.cmp(&first.count) {
        Ordering::Less => Progress::Behind(first.count - second.count),
        Ordering::Equal => Progress::Level,
        Ordering::Greater => Progress::Ahead(second.count - first.count),
    }
}
