// Letting pairs wait.
ghost use Rattle.engine.specs.Inner.{PutEach, PutUpTo};

use crate::net::Net;
use books::book::Book;
use pairs::active::led_by;
use strategies::pair::Pair;
use strategies::strategy::Strategy;

/// Puts pairs in their order.
// no put of a run that keeps its account is refused: at most 512 pairs wait or are out
pub(crate) fn put_each<S: Strategy>(strategy: &mut S, pairs: &[Pair])
    ensures { PutEach S.Strategy strategy.old pairs.now strategy.new }
{
    for pair in pairs {
        let _ = strategy.put(*pair);
    }
}

/// Puts every active pair of a net, by rising lower place.
pub(crate) fn put_active<B: Book, S: Strategy>(net: &Net<B>, strategy: &mut S)
    ensures { PutUpTo B.Book.meaning S.Strategy net.now strategy.old 1024 strategy.new }
{
    // by number: a table has no iterator over its places
    for place in 0..1024 {
        if let Some(pair) = led_by(&net.book, &net.table, place) {
            let _ = strategy.put(pair);
        }
    }
}
