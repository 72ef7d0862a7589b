//! The verdicts of transactions.

ghost use Rattle.std.specs.Prelude.{◌≡◌, ◌∷◌, [], ◌++◌, ◌-◌, length, take, get_or, set, Some, None, OnOk, OnErr};
ghost use Rattle.std.specs.Option.{option_map};
ghost use Rattle.delivery.specs.Inner.Senders.{verdicts_with};
ghost use Rattle.delivery.specs.Inner.Verdicts.{verdict_at};

use mcast_group::{Found, Verdicts};
use mcast_txn::{Part, TxnId, Verdict};
use std::alloc::Global;
use std::marker::Model;
use stomp_frame::NoMemory;

/// The verdicts of transactions, by sender and seq. In contracts it is, for each sender, the verdicts of its
/// transactions so far, of which the first has seq 1.
#[derive(Drop)]
pub(crate) struct Table {
    senders: Vec<Vec<Option<Box<Verdict>>>>,
}

impl Model for Table {
    ghost use Rattle.std.specs.Prelude.{List, map, Option};
    ghost use Rattle.std.specs.Option.{option_map};
    ghost use Rattle.mcast_txn.specs.Ballot.{Decision};

    ghost Value = { List (List (Option Decision)) };

    ghost view = { λ t. map (λ verdicts. map (option_map (λ verdict. verdict.value)) verdicts.items) t.senders.items };
}

impl Table {
    /// No senders. It takes no memory.
    pub(crate) fn new(alloc: Global) -> Table
        ensures { result ≡ [] }
    {
        Table {
            senders: Vec::new(alloc),
        }
    }

    /// One more sender, which has made no transaction. After `NoMemory` the table is what it was.
    pub(crate) fn add_sender(&mut self, alloc: Global) -> Result<(), NoMemory>
        ensures ok { OnOk result (self.new ≡ self.old ++ [] ∷ []) }
        ensures err { OnErr result (self.new ≡ self.old) }
    {
        self.senders.reserve(1)?;
        self.senders.push_reserved(Vec::new(alloc));
        Ok(())
    }

    /// One sender fewer: the last one.
    pub(crate) fn drop_sender(&mut self)
        ensures { self.new ≡ take (length self.old - 1) self.old }
    {
        self.senders.pop();
    }

    /// One more transaction of this sender, which isn't decided. After `NoMemory` the table is what it was.
    pub(crate) fn add_seq(&mut self, sender: usize) -> Result<(), NoMemory>
        ensures ok { OnOk result (self.new ≡ set self.old sender (get_or self.old sender [] ++ None ∷ [])) }
        ensures err { OnErr result (self.new ≡ self.old) }
    {
        if sender >= self.senders.len() {
            return Ok(());
        }
        let verdicts = &mut self.senders[sender];
        match verdicts.push(None) {
            Ok(()) => Ok(()),
            Err(_) => Err(NoMemory),
        }
    }

    /// One transaction of this sender fewer: the last one, which isn't decided.
    pub(crate) fn drop_seq(&mut self, sender: usize)
        ensures { self.new ≡ set self.old sender
            (take (length (get_or self.old sender []) - 1) (get_or self.old sender [])) }
    {
        if sender < self.senders.len() {
            let verdicts = &mut self.senders[sender];
            verdicts.truncate(verdicts.len().saturating_sub(1));
        }
    }

    /// Puts the verdict of a transaction of this sender into its slot, where there is one. It takes no memory.
    pub(crate) fn set(&mut self, sender: usize, verdict: Box<Verdict>)
        ensures { self.new ≡ verdicts_with sender verdict.value self.old }
    {
        if sender < self.senders.len() {
            let index = verdict.id().seq.saturating_sub(1) as usize;
            fill(&mut self.senders[sender], index, verdict);
        }
    }

    /// The verdict of this transaction, if it was decided: found without a search.
    pub(crate) fn verdict(&self, id: TxnId) -> Option<&Verdict>
        ensures { option_map (λ verdict. verdict.now) result ≡ verdict_at id self.now }
    {
        let index = id.seq.checked_sub(1)?;
        let verdicts = self.senders.get(id.sender.0 as usize)?;
        match verdicts.get(index as usize)? {
            Some(verdict) => Some(verdict),
            None => None,
        }
    }
}

/// Fills the slot of this index, where there is one.
fn fill(verdicts: &mut Vec<Option<Box<Verdict>>>, index: usize, verdict: Box<Verdict>)
    ensures { verdicts.new.items ≡ set verdicts.old.items index (Some verdict) }
{
    if index < verdicts.len() {
        verdicts[index] = Some(verdict);
    }
}

impl Verdicts for Table {
    ghost finds = { λ table part found. found ≡ verdict_at part.id table };

    /// The verdict of the part's transaction, if it was decided.
    fn find<'a>(&'a self, part: &'a Part) -> Option<Found<'a>> {
        let verdict = self.verdict(part.id())?;
        Some(Found {
            verdict,
            seen: None,
        })
    }
}
