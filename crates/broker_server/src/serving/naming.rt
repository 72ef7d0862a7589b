//! Topics that are made on first use.

ghost use Rattle.std.specs.Prelude.{◌≡◌, ◌∷◌, ◌++◌, [], ◌<◌, ℕ, List, codes, false, length, true, IfOk, IfErr, IfSome, OnOk, OnErr};
ghost use Rattle.stomp_frame.specs.ClientFrames.{raw_of};
ghost use Rattle.stomp_session.specs.Frames.{field, has_destination};
ghost use Rattle.stomp_session.specs.Names.{is_known, max_topics};
ghost use Rattle.broker_server.specs.Judging.{Grows, IsFrameAccepted, IsFrameRefused};

use crate::conversation::ConversationFault;
use delivery::MAX_TOPICS;
use mcast_txn::NoMemory;
use stomp_frame::ClientFrame;
use stomp_session::{Names, Session, Step, is_name};

/// The names of all topics, which a connection shares that knows the first of them. That it does is looked at, though no
/// topic is lost while the server runs: were it otherwise, it would be as where there is no memory.
#[tactic(auto, using(crate::proofs::NamingLemmas::grows_front))]
fn caught_up(names: &Names, all: &Names) -> Result<Names, NoMemory>
    ensures known { IfOk result (λ known. known ≡ all.now) }
    ensures grows { OnOk result (Grows names.now all.now) }
{
    if !names.is_front_of(all) {
        return Err(NoMemory);
    }
    let known = all.share()?;
    Ok(known)
}

/// The destination of a SEND or a SUBSCRIBE.
fn destination(frame: &ClientFrame) -> Option<&[u8]>
    ensures value { IfSome result (λ name. name.now ≡ field (codes "destination") (raw_of frame.now)) }
    ensures has { IfSome result (λ name. has_destination (raw_of frame.now).command ≡ true) }
{
    match frame {
        ClientFrame::Send(frame) => Some(frame.destination()),
        ClientFrame::Subscribe(frame) => Some(frame.destination()),
        _ => None,
    }
}

/// The name of the topic that a frame may make: its destination, where these are the names of all topics.
fn new_name<'a>(all: &Names, frame: &'a ClientFrame) -> Option<&'a [u8]>
    ensures value { IfSome result (λ name. name.now ≡ field (codes "destination") (raw_of frame.now)) }
    ensures is_new { IfSome result (λ name. is_known name.now all.now ≡ false) }
    ensures few { IfSome result (λ name. length all.now < max_topics) }
{
    let name = destination(frame)?;
    if is_name(name) && all.len() < MAX_TOPICS && all.find(name).is_none() {
        Some(name)
    } else {
        None
    }
}

/// Whether a frame may make a topic, where these are the names of all.
pub(crate) fn may_make(all: &Names, frame: &ClientFrame) -> bool
    ensures { result ≡ true → length all.now < max_topics }
{
    new_name(all, frame).is_some()
}

/// Puts the name of the topic that a frame may make behind those of all topics; whether there is one.
fn add_new(all: &mut Names, frame: &ClientFrame) -> Result<bool, NoMemory>
    ensures made { IfOk result (λ made. made ≡ true
        → all.new ≡ all.old ++ field (codes "destination") (raw_of frame.now) ∷ []) }
    ensures same { IfOk result (λ made. made ≡ false → all.new ≡ all.old) }
    ensures err { OnErr result (all.new ≡ all.old) }
{
    let Some(name) = new_name(all, frame) else {
        return Ok(false);
    };
    all.add(name)?;
    Ok(true)
}

/// Has the session take a frame by the names of all topics, which the connection knows then where it is accepted.
#[inline(always)]
pub(crate) fn step_by(
    all: &Names,
    session: &mut Session,
    frame: ClientFrame,
    names: &mut Names,
) -> Result<Step, (ClientFrame, ConversationFault)>
    ensures accepted { IfOk result (λ step. Grows names.old all.now
        × IsFrameAccepted (raw_of frame) step session.old all.now session.new names.new) }
    ensures refused { IfErr result (λ e. (known : List (List ℕ)) × Grows names.old known
        × IsFrameRefused (raw_of frame) e.1 session.old known) }
    ensures back { IfErr result (λ e. e.0 ≡ frame) }
{
    let Ok(mut known) = caught_up(names, all) else {
        return Err((frame, ConversationFault::NoMemory));
    };
    match session.step(frame, &mut known) {
        Ok(step) => {
            *names = known;
            Ok(step)
        }
        Err((frame, fault)) => Err((frame, ConversationFault::from(fault))),
    }
}

/// Has the session take a frame by the names of all topics, among which its destination is then, where it may be a new
/// topic's: it stays where the session accepts the frame. Where it does, the connection knows them all; and whether a
/// topic was made.
pub(crate) fn step_by_all(
    all: &mut Names,
    session: &mut Session,
    frame: ClientFrame,
    names: &mut Names,
) -> (Result<Step, (ClientFrame, ConversationFault)>, bool)
    ensures accepted { IfOk result.0 (λ step. Grows names.old all.new
        × IsFrameAccepted (raw_of frame) step session.old all.new session.new names.new) }
    ensures refused { IfErr result.0 (λ e. (known : List (List ℕ)) × Grows names.old known
        × IsFrameRefused (raw_of frame) e.1 session.old known) }
    ensures back { IfErr result.0 (λ e. e.0 ≡ frame) }
    ensures made { result.1 ≡ true
        → all.new ≡ all.old ++ field (codes "destination") (raw_of frame) ∷ [] }
    ensures same { result.1 ≡ false → all.new ≡ all.old }
    ensures unmade { OnErr result.0 (result.1 ≡ false) }
{
    let Ok(made) = add_new(all, &frame) else {
        return (Err((frame, ConversationFault::NoMemory)), false);
    };
    match step_by(all, session, frame, names) {
        Ok(step) => (Ok(step), made),
        Err(refused) => {
            if made {
                all.take_back();
            }
            (Err(refused), false)
        }
    }
}
