//! What a judged frame asks of the connection.

ghost use Rattle.std.specs.Prelude.{◌≡◌, codes, Some, IfSome, IsSome};
ghost use Rattle.stomp_frame.specs.Headers.{IsText, first_of};
ghost use Rattle.stomp_frame.specs.Receipts.{asked_receipt, receipt_of};
ghost use Rattle.stomp_session.specs.Answers.{AreTexts};
ghost use Rattle.stomp_session.specs.Inner.Effects.{HasItsId, action_of};

use crate::action::{Action, Step};
use mcast_txn::{Topic, Txn};
use stomp_frame::{Command, Headers, Octets, RawFrame};

/// What an accepted frame asks of the connection, while its id, its client-id and its receipt are still in the frame.
#[derive(Drop)]
pub(crate) enum Judged {
    Connected,
    Nothing,
    Subscribe(Topic),
    Unsubscribe,
    Commit(Txn),
    Disconnect,
}

/// The id of a frame, moved out of its headers.
fn take_id(headers: &mut Headers) -> Octets
    requires { IsSome (first_of (codes "id") headers.old) }
    ensures value { Some result ≡ first_of (codes "id") headers.old }
    ensures text { IsText result }
    ensures receipt { first_of (codes "receipt") headers.new ≡ first_of (codes "receipt") headers.old }
{
    headers.take(b"id").unwrap()
}

/// The client-id of a frame, if it has one, moved out of its headers.
fn take_client(headers: &mut Headers) -> Option<Octets>
    ensures value { result ≡ first_of (codes "client-id") headers.old }
    ensures text { IfSome result IsText }
    ensures receipt { first_of (codes "receipt") headers.new ≡ first_of (codes "receipt") headers.old }
{
    headers.take(b"client-id")
}

/// The receipt that a frame of this command asks for, moved out of its headers.
fn take_receipt(command: Command, headers: &mut Headers) -> Option<Octets>
    ensures value { result ≡ asked_receipt command headers.old }
    ensures text { IfSome result IsText }
{
    match command {
        Command::Connect | Command::Stomp => None,
        _ => headers.take(b"receipt"),
    }
}

impl Judged {
    /// The step of the frame, whose id or client-id and receipt are moved out of it.
    pub(crate) fn into_step(self, frame: RawFrame) -> Step
        requires { HasItsId self frame }
        ensures action { result.action ≡ action_of self frame }
        ensures receipt { result.receipt ≡ receipt_of frame }
        ensures texts { AreTexts result }
    {
        let mut headers = frame.headers;
        let action = match self {
            Judged::Connected => Action::Connected(take_client(&mut headers)),
            Judged::Nothing => Action::Nothing,
            Judged::Subscribe(topic) => Action::Subscribe(take_id(&mut headers), topic),
            Judged::Unsubscribe => Action::Unsubscribe(take_id(&mut headers)),
            Judged::Commit(txn) => Action::Commit(txn),
            Judged::Disconnect => Action::Disconnect,
        };
        let receipt = take_receipt(frame.command, &mut headers);
        Step { action, receipt }
    }
}
