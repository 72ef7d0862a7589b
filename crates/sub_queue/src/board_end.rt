//! An end of a board, by which the end of a queue that takes tells the end that pushes how many items it took.

ghost use Rattle.std.specs.Prelude.{◌≡◌, Some, IfOk, IfSome};

use crate::board_rule::{Board, BoardPass, PutsUp, TakesDown, TwoReaders};
use crate::taken_so_far::TakenSoFar;
use mcast_txn::NoMemory;
use std::alloc::Global;
use std::marker::Model;
use std::sync::{Arc, Wait};

/// An end of a board of one place. In contracts it is the queue that the board's notes are of: so a note that is taken
/// down is known to be of the queue that the other end has.
pub(crate) struct BoardEnd {
    board: Arc<Board>,
    pass: BoardPass,
}

impl Drop for BoardEnd {
    /// Written out, so that letting an end go is one call for the prover wherever it happens.
    fn drop(self) {
        let BoardEnd { board, pass } = self;
        drop(board);
        drop(pass);
    }
}

impl Model for BoardEnd {
    ghost use Rattle.std.specs.Prelude.{Option};
    ghost use Rattle.crossbeam_queue.specs.Passes.{IsPassOf};
    ghost use Rattle.sub_queue.specs.Ends.{QueueId};
    ghost use Rattle.sub_queue.specs.Inner.Board.{known_queue};

    ghost Value = { Option QueueId };

    ghost view = { λ e. known_queue e.pass };

    ghost invariant = { λ e. IsPassOf e.board.value e.pass };
}

impl BoardEnd {
    /// A board with this note on it, as its two ends.
    pub(crate) fn two(alloc: Global, note: TakenSoFar) -> Result<(BoardEnd, BoardEnd), NoMemory>
        ensures { IfOk result (λ ends. (ends.0 ≡ Some note.queue) × (ends.1 ≡ Some note.queue)) }
    {
        let (board, mut pass) = Board::ruled(alloc, 1)?;
        // It is empty, and nobody else has it: one attempt is enough.
        let Ok(()) = board.try_push_as::<PutsUp>(&mut pass, note) else {
            return Err(NoMemory);
        };
        let theirs = board.another::<TwoReaders>(&mut pass);
        let board = Arc::new(alloc, board)?;
        let other = BoardEnd {
            board: Arc::try_clone(&board)?,
            pass: theirs,
        };
        Ok((BoardEnd { board, pass }, other))
    }

    /// Puts a note on the board, in place of the one that is there, if there is one.
    pub(crate) fn put_up<R: Wait>(&mut self, rt: &R, note: TakenSoFar)
        requires { self.old ≡ Some note.queue }
        ensures { self.new ≡ self.old }
    {
        self.board
            .force_push_as::<PutsUp, TakesDown, R>(rt, &mut self.pass, note);
    }

    /// Takes the note from the board, if there is one that isn't just being put up. It never waits.
    pub(crate) fn take_down(&mut self) -> Option<TakenSoFar>
        ensures of { IfSome result (λ note. self.old ≡ Some note.queue) }
        ensures same { self.new ≡ self.old }
    {
        self.board.try_pop_as::<TakesDown>(&mut self.pass)
    }
}
