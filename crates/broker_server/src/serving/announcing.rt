//! The log's lines of who came, who left, and who asks for what is ignored.

use crate::conversation::Ignored;
use crate::serving::hub::Hub;
use crate::serving::line_rate::Admitted;
use crate::serving::peer::Peer;
use crate::serving::why_left::WhyLeft;
use broker_locks::Side;
use log::{Log, info, warn};
use std::sync::Wait;
use std::time::Clock;

/// Says that this peer's connection came, unless too many lines do.
#[inline(never)]
pub(crate) fn say_came<R: Wait + Clock + Log, W: Side, T: Side>(
    rt: &R,
    hub: &Hub<R, W, T>,
    peer: Peer,
) {
    if admits(rt, hub) {
        info!(rt; target: "serve", "{peer} came");
    }
}

/// Says why this peer's connection left, unless too many lines do. That of one which lagged and took nothing is always there.
#[inline(never)]
pub(crate) fn say_left<R: Wait + Clock + Log, W: Side, T: Side>(
    rt: &R,
    hub: &Hub<R, W, T>,
    peer: Peer,
    left: &WhyLeft,
) {
    match left {
        WhyLeft::Untaken => warn!(rt; target: "serve", "{peer} left: {left}"),
        _ if admits(rt, hub) => info!(rt; target: "serve", "{peer} left: {left}"),
        _ => {}
    }
}

/// Says what this peer's client asks for that is ignored, unless too many lines do. A subscriber gets other MESSAGEs than it
/// asked for by the first three; many clients ask for the others unasked.
pub(crate) fn say_ignored<R: Wait + Clock + Log, W: Side, T: Side>(
    rt: &R,
    hub: &Hub<R, W, T>,
    peer: Peer,
    ignored: Ignored,
) {
    if ignored.selector && admits(rt, hub) {
        warn!(rt; target: "serve", "{peer} asks for a selector: ignored");
    }
    if ignored.durable && admits(rt, hub) {
        warn!(rt; target: "serve", "{peer} asks for a durable subscription: ignored");
    }
    if ignored.wildcard && admits(rt, hub) {
        warn!(rt; target: "serve", "{peer} asks for a wildcard: it names a topic");
    }
    if ignored.persistent && admits(rt, hub) {
        info!(rt; target: "serve", "{peer} asks for persistent messages: ignored");
    }
    if ignored.heart_beat && admits(rt, hub) {
        info!(rt; target: "serve", "{peer} asks for heart-beats: ignored");
    }
}

/// One more such line comes; whether it is to be written. The accepting thread is told of the first that isn't, and says later
/// how many weren't.
fn admits<R: Wait + Clock, W: Side, T: Side>(rt: &R, hub: &Hub<R, W, T>) -> bool {
    match hub.totals().admit(rt) {
        Admitted::Written => true,
        Admitted::FirstLeftOut => {
            hub.door().ring();
            false
        }
        Admitted::LeftOut => false,
    }
}

/// Says how many such lines were left out, if any were.
pub(crate) fn say_left_out<R: Log>(rt: &R, count: Option<u64>) {
    if let Some(count) = count {
        info!(rt; target: "serve", "{count} lines of who came or left were left out");
    }
}
