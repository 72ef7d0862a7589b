//! Made histories of two connections of one server: what their sessions answer to each of their frames, and what the
//! plain definition does.

use super::answers::{PlainAction, PlainAnswer, plain_answer};
use super::client::{add_name, many_names};
use super::made::{Draws, Made};
use super::plain::Past;
use crate::{Names, Session};
use std::alloc::Global;
use std::test::Fail;
use stomp_frame::NoMemory;

/// How many histories there are, and how many frames each has.
const HISTORIES: u32 = 500;

const FRAMES: u8 = 48;

/// How many topics there are before `A` in each eighth history, so that only three more are made.
const MANY: u32 = 1_020;

/// The next frame of a history. Fifteen times in sixteen one that would be refused is drawn again, up to eight times,
/// so that histories get long.
fn next_frame(draws: &mut Draws, past: &Past, index: u8) -> Made {
    let again = if draws.below(16) == 0 { 0 } else { 8 };
    let mut made = draws.frame(index);
    for _ in 0..again {
        if past.refusal(&made).is_some() {
            made = draws.frame(index);
        }
    }
    made
}

/// What came in the histories.
#[derive(Drop)]
struct Seen {
    /// The refusals from 60 on.
    refusals: [bool; 17],
    /// The actions in the order of `PlainAction`.
    actions: [bool; 6],
    /// A transaction of four SENDs and more, at three topics or more.
    at_three: bool,
    /// A history in which four topics were made.
    made_four: bool,
    /// A subscription that asked for parts.
    asked: bool,
}

impl Seen {
    fn has_refusal(&self, number: u32) -> bool {
        let index = number.wrapping_sub(60) as usize;
        self.refusals.get(index).copied().unwrap_or(false)
    }

    /// The first refusal that didn't come, of those that a history may have; 0 where each came.
    fn missing(&self) -> u32 {
        for &number in &[60, 61, 62, 63, 64, 65, 66, 68, 73, 75, 76] {
            if !self.has_refusal(number) {
                return number;
            }
        }
        0
    }

    /// Whether each action came, and what is to come beside them.
    fn has_all_else(&self) -> bool {
        self.actions.iter().all(|came| *came) && self.at_three && self.made_four && self.asked
    }

    fn refusal(&mut self, number: u32) {
        if let Some(came) = self.refusals.get_mut(number.wrapping_sub(60) as usize) {
            *came = true;
        }
    }

    fn action(&mut self, action: &PlainAction) {
        let index = match action {
            PlainAction::Connected(_) => 0,
            PlainAction::Nothing => 1,
            PlainAction::Subscribe(_, _) => 2,
            PlainAction::Unsubscribe(_) => 3,
            PlainAction::Commit(txn) => {
                if txn.len >= 4 && txn.topics.len() >= 3 {
                    self.at_three = true;
                }
                4
            }
            PlainAction::Disconnect => 5,
        };
        self.actions[index] = true;
    }

    fn note(&mut self, told: &PlainAnswer) {
        match told {
            PlainAnswer::Refused(number) => self.refusal(*number),
            PlainAnswer::Accepted(action, _) => self.action(action),
        }
    }
}

/// A history on its way: the topics' names, the two sessions, the frames that were accepted, and the draws.
#[derive(Drop)]
struct History {
    names: Names,
    first: Session,
    second: Session,
    past: Past,
    draws: Draws,
}

impl History {
    /// Each eighth history begins with many topics before `A`.
    fn begin(alloc: Global, history: u32) -> Result<History, NoMemory> {
        let before = if history % 8 == 0 { MANY } else { 0 };
        let mut names = many_names(alloc, before as usize)?;
        add_name(&mut names, b"A")?;
        Ok(History {
            names,
            first: Session::new(alloc),
            second: Session::new(alloc),
            past: Past::new(alloc, before)?,
            draws: Draws::of(history),
        })
    }

    /// What its connection's session answers to a made frame.
    fn answer(&mut self, alloc: Global, made: &Made) -> Result<PlainAnswer, Fail> {
        let frame = made.frame(alloc)?;
        let answer = if made.is_second {
            self.second.step(frame, &mut self.names)
        } else {
            self.first.step(frame, &mut self.names)
        };
        plain_answer(alloc, answer)
    }

    /// Whether the session answers this frame as the list of the frames before it says.
    fn agrees_on(&mut self, alloc: Global, made: &Made, seen: &mut Seen) -> Result<bool, Fail> {
        let told = self.answer(alloc, made)?;
        seen.note(&told);
        Ok(self.past.is_answer(made, &told)?)
    }

    /// Whether the session answers the next frame as the list of the frames before it says, and there are as many
    /// names as that list says.
    fn agrees(&mut self, alloc: Global, index: u8, seen: &mut Seen) -> Result<bool, Fail> {
        let made = next_frame(&mut self.draws, &self.past, index);
        let agrees = self.agrees_on(alloc, &made, seen)?;
        self.past.put(&made)?;
        Ok(
            agrees
                && self.names.len() == self.past.topics() as usize
                && self.asks_alike(&made, b'a', seen)
                && self.asks_alike(&made, b'b', seen),
        )
    }

    /// Whether the session of a frame's connection says of the subscription of this id what the list says.
    fn asks_alike(&self, made: &Made, id: u8, seen: &mut Seen) -> bool {
        let mut of = *made;
        of.id = Some(id);
        let asks = if made.is_second {
            self.second.asks_parts(&[id])
        } else {
            self.first.asks_parts(&[id])
        };
        if asks {
            seen.asked = true;
        }
        asks == self.past.asks_parts(&of)
    }

    /// The index of the first frame that is answered otherwise; `FRAMES` if there is none.
    fn first_difference(&mut self, alloc: Global, seen: &mut Seen) -> Result<u8, Fail> {
        for index in 0..FRAMES {
            if !self.agrees(alloc, index, seen)? {
                return Ok(index);
            }
        }
        if self.past.topics() == 5 {
            seen.made_four = true;
        }
        Ok(FRAMES)
    }
}

/// The index of the first frame of a history that is answered otherwise; `FRAMES` if there is none.
fn first_difference(alloc: Global, history: u32, seen: &mut Seen) -> Result<u8, Fail> {
    let mut history = History::begin(alloc, history)?;
    history.first_difference(alloc, seen)
}

/// Each answer is the one that the list of the frames accepted before says, and each kind of answer comes.
#[test]
fn made_histories(rt: HostRuntime) -> Result<(), Fail> {
    let mut seen = Seen {
        refusals: [false; 17],
        actions: [false; 6],
        at_three: false,
        made_four: false,
        asked: false,
    };
    for history in 0..HISTORIES {
        let index = first_difference(rt.alloc(), history, &mut seen)?;
        assert!(rt; index == FRAMES, "history {history}, frame {index}");
    }
    let missing = seen.missing();
    assert!(rt; missing == 0, "no {missing}");
    assert!(rt; seen.has_all_else());
    Ok(())
}
