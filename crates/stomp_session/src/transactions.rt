//! The transactions that are open.

ghost use Rattle.std.specs.Prelude.{◌≡◌, ◌<◌, ◌-◌, ◌^◌, min, sum_by, ℕ, List, true, false, not, [], ◌∷◌, ◌++◌, length, Some, IfOk, IfErr, OnOk};
ghost use Rattle.mcast_txn.specs.Checks.{first_refusal};
ghost use Rattle.mcast_txn.specs.Transaction.{weight};
ghost use Rattle.stomp_session.specs.Refusals.{is_open, is_full_of_sends, sends_in};
ghost use Rattle.stomp_session.specs.Inner.Effects.{index_of_id, with_send};
ghost use Rattle.stomp_session.specs.declared.fault.SessionFault.TheVariants.{NoSuchTxn, TooManySends};

use crate::fault::SessionFault;
use crate::opened::Opened;
use indexmap::IndexMap;
use mcast_txn::{Draft, MAX_SENDS, Topic};
use stomp_frame::{Headers, Octets};

impl Opened<Draft> {
    /// What the SENDs of all of them weigh, or 2^64 - 1 where they weigh more.
    pub(crate) fn weight(&self) -> u64
        ensures { result ≡ min (sum_by (λ t. weight t.1) self.now) (2 ^ 64 - 1) }
    {
        weight_of(&self.values)
    }

    /// The index of the transaction of this name, which takes one more SEND: 66 where it isn't open, 71 where it has
    /// 64.
    pub(crate) fn index_for_send(&self, name: &[u8]) -> Result<usize, SessionFault>
        ensures ok { OnOk result ((is_open name.now self.now ≡ true)
            × (is_full_of_sends (sends_in name.now self.now) ≡ false)) }
        ensures index { IfOk result
            (λ index. (index ≡ index_of_id name.now self.now) × (index < length self.now)) }
        ensures err { IfErr result (λ fault. Some fault ≡ first_refusal
            ((not (is_open name.now self.now), NoSuchTxn)
            ∷ (is_full_of_sends (sends_in name.now self.now), TooManySends) ∷ [])) }
    {
        let Some((index, _, draft)) = self.values.get_full(name) else {
            return Err(SessionFault::NoSuchTxn);
        };
        if draft.len() >= MAX_SENDS {
            return Err(SessionFault::TooManySends);
        }
        Ok(index)
    }

    /// Adds a SEND at the end of the transaction at this index. Its headers and body are returned where there is no
    /// memory.
    pub(crate) fn add(
        &mut self,
        index: usize,
        topic: Topic,
        headers: Headers,
        body: Octets,
    ) -> Result<(), (Headers, Octets)>
        requires { index < length self.old }
        ensures ok { OnOk result ((name : List ℕ) → index ≡ index_of_id name self.old
            → self.new ≡ with_send name
            (record { topic = topic; headers = headers; body = body }) self.old) }
        ensures back { IfErr result (λ refused. refused ≡ (headers, body)) }
    {
        let draft = self.values.get_index_mut(index).unwrap();
        match draft.add(topic, headers, body) {
            Ok(()) => Ok(()),
            Err((headers, body, _)) => Err((headers, body)),
        }
    }
}

/// What the SENDs of these drafts weigh, or 2^64 - 1 where they weigh more.
fn weight_of(drafts: &IndexMap<Vec<u8>, Draft>) -> u64
    ensures { result ≡ min (sum_by (λ entry. weight entry.1) drafts.now.entries) (2 ^ 64 - 1) }
{
    let mut sum = 0u64;
    for index in 0..drafts.len() {
        let entry = drafts.get_index(index).unwrap();
        let more = entry.1.weight();
        sum = sum.saturating_add(more);
    }
    sum
}
