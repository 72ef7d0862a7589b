//! How the two ends of a shared queue are made and put together.

ghost use Rattle.std.specs.Prelude.{◌≡◌, ◌<◌, ◌++◌, [], IfOk};
ghost use Rattle.mcast_txn.specs.Lists.{Rises};
ghost use Rattle.mcast_txn.specs.Span.{item_stamp};

use crate::board_end::BoardEnd;
use crate::left::Left;
use crate::queue_end::QueueEnd;
use crate::source::Source;
use crate::taken_so_far::TakenSoFar;
use crate::taker::Taker;
use mcast_txn::NoMemory;
use std::alloc::Global;
use std::marker::PhantomData;

/// An empty queue of this capacity, as its two ends, each for a thread of its own. Out of memory there is none.
pub fn ruled<R>(alloc: Global, capacity: usize) -> Result<(Source<R>, Taker), NoMemory>
    requires { 0 < capacity }
    ensures one { IfOk result (λ ends. ends.1 ≡ ends.0) }
    ensures empty { IfOk result (λ ends. ends.0.items ≡ []) }
    ensures capacity { IfOk result (λ ends. ends.0.capacity ≡ capacity) }
{
    let (pusher, mut end) = QueueEnd::two(alloc, capacity)?;
    let none_taken = TakenSoFar {
        witness: end.witness(),
        count: 0,
    };
    let (hearing, telling) = BoardEnd::two(alloc, none_taken)?;
    let source = Source {
        end: pusher,
        board: hearing,
        capacity,
        told: 0,
        untaken: 0,
        runtime: PhantomData,
    };
    let taker = Taker {
        end,
        board: telling,
        taken: 0,
    };
    Ok((source, taker))
}

/// Puts the two ends of one queue together, with no memory. What was taken and then what is left is what was pushed, in
/// order, and it rises strictly in stamp.
pub fn close<R>(source: Source<R>, taker: Taker) -> Left
    requires { taker.queue ≡ source.queue }
    ensures left { source.items ≡ taker.items ++ result }
    ensures rises { Rises item_stamp source.items }
{
    Left {
        end: source.into_end().join(taker.into_end()),
    }
}
