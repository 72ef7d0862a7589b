//! Servers that end, and what their traces say.

ghost use Rattle.std.specs.Prelude.{◌≡◌};
ghost use denote.Param.Send.{IsSend, IsSync};

use super::lines::Lines;
use broker_locks::{Broker, ServerFault, Side};
use broker_server::serve;
use delivery::Topics;
use log::sink::Discard;
use log::{LevelFilter, Log, Logged};
use mcast_txn::NoMemory;
use mio::net::TcpListener;
use std::alloc::Global;
use std::marker::Brand;
use std::net::{Ipv4Addr, Net, SocketAddr};
use std::sync::Wait;
use std::sync::atomic::{AtomicBool, Ordering};
use std::sync::ledger::Blank;
use std::thread;
use std::thread::{Scope, Threads};
use std::time::Clock;
use trace_audit::{Trace, audit};

/// Those who talk to a server.
pub(super) trait Peers: Drop {
    /// How many connections they make.
    fn count(&self) -> u64;

    /// How many of these are made before the server begins. The others they make themselves.
    fn ready(&self) -> u64 {
        self.count()
    }

    /// They talk to the server, over these connections first, which were ready; whether it answered as it should. Then they
    /// are gone.
    fn meet(&self, alloc: Global, lines: &mut Lines) -> bool;
}

/// A runtime that logs nothing.
pub(super) fn quiet(rt: HostRuntime) -> Logged<HostRuntime, Discard> {
    Logged::new(rt, LevelFilter::Off, Discard)
}

/// Adds a topic of this name, if it may be added.
fn add(topics: &mut Topics, name: &[u8], clock: u64) -> Result<(), NoMemory> {
    if topics.may_add(name) {
        topics.add(name, clock)?;
    }
    Ok(())
}

/// The topics A and B, whose clocks are 0, and the topic `full`, whose clock has no number left.
fn three_topics(alloc: Global) -> Result<Topics, NoMemory> {
    let mut topics = Topics::new(alloc);
    add(&mut topics, b"A", 0)?;
    add(&mut topics, b"B", 0)?;
    add(&mut topics, b"full", u64::MAX)?;
    Ok(topics)
}

/// Whether an audit finds so many transactions, and each at each of its topics.
fn has_rows(alloc: Global, trace: &Trace, rows: usize) -> bool {
    match audit(alloc, trace) {
        Ok(agreed) => agreed.complete && agreed.rows.len() == rows,
        Err(_) => false,
    }
}

/// Whether a server answers these peers as it should, and ends with a trace of so many transactions.
pub(super) fn serves<R, P>(rt: &R, alloc: Global, peers: &P, rows: usize) -> bool
where
    R: Threads + Wait + Net + Clock + Log + Send + Sync,
    P: Peers + Send + Sync,
{
    match met(rt, alloc, peers) {
        Some((met, Ok(trace))) => met && has_rows(alloc, &trace, rows),
        _ => false,
    }
}

/// Whether a server answered these peers as it should, and how it ended; `None` where it didn't begin.
pub(super) fn met<R, P>(
    rt: &R,
    alloc: Global,
    peers: &P,
) -> Option<(bool, Result<Trace, ServerFault>)>
where
    R: Threads + Wait + Net + Clock + Log + Send + Sync,
    P: Peers + Send + Sync,
{
    let workers = Blank::new(257);
    served::<R, P, Brand, Brand>(rt, alloc, peers, workers, Blank::new(1_024))
}

/// A server at a port of its own, and so many connections to it.
fn opened<R: Net>(rt: &R, alloc: Global, count: u64) -> Option<(TcpListener, Lines)> {
    let listener = TcpListener::bind(rt, SocketAddr::from((Ipv4Addr::LOCALHOST, 0))).ok()?;
    let addr = listener.local_addr().ok()?;
    let lines = Lines::new(rt, alloc, addr, count)?;
    Some((listener, lines))
}

/// Starts the thread of these peers, who talk over these connections; whether the server answered them as it should is told
/// here. Where there is no thread the connections are gone at once.
fn start<'a, 's, E, P>(
    alloc: Global,
    scope: &Scope<'s, E>,
    peers: &'a P,
    lines: Lines,
    met: &'a AtomicBool,
)
where
    P: Peers + Send + Sync,
    'a: 's,
{
    let mut lines = lines;
    let _ = scope.spawn(move || met.store(peers.meet(alloc, &mut lines), Ordering::SeqCst));
}

/// Serves these peers until they and the server have ended.
fn served_by<R, P, W, T>(
    rt: &R,
    alloc: Global,
    peers: &P,
    broker: Broker<R, W, T>,
    listener: TcpListener,
    lines: Lines,
) -> (bool, Result<Trace, ServerFault>)
where
    R: Threads + Wait + Net + Clock + Log + Send + Sync,
    P: Peers + Send + Sync,
    W: Side + Send + Sync + 'static,
    T: Side + Send + Sync + 'static,
{
    let count = peers.count();
    let met = AtomicBool::new(false);
    let ended = thread::scope(
        thread::scope_env(),
        rt,
        |scope| -> Result<Trace, ServerFault>
            requires { IsSend R.row × IsSync R.row × IsSend W.row × IsSync W.row × IsSend T.row × IsSync T.row
                × IsSend P.row × IsSync P.row }
        {
            start(alloc, scope, peers, lines, &met);
            serve(rt, alloc, broker, listener, Some(count))
        },
    );
    (met.load(Ordering::SeqCst), ended)
}

/// The same at a port of its own.
fn served_at_a_port<R, P, W, T>(
    rt: &R,
    alloc: Global,
    peers: &P,
    broker: Broker<R, W, T>,
) -> Option<(bool, Result<Trace, ServerFault>)>
where
    R: Threads + Wait + Net + Clock + Log + Send + Sync,
    P: Peers + Send + Sync,
    W: Side + Send + Sync + 'static,
    T: Side + Send + Sync + 'static,
{
    let (listener, lines) = opened(rt, alloc, peers.ready())?;
    Some(served_by(rt, alloc, peers, broker, listener, lines))
}

/// A broker of those three topics with these ledgers.
fn broker_with<R, W, T>(alloc: Global, workers: Blank, tickets: Blank) -> Option<Broker<R, W, T>>
where
    R: Wait,
    W: Side,
    T: Side,
    requires workers { (workers.name ≡ W.name) × (workers.parts ≡ W.parts) × (W.parts ≡ W.all) × (W.all ≡ 257) }
    requires tickets { (tickets.name ≡ T.name) × (tickets.parts ≡ T.parts) × (T.parts ≡ T.all) × (T.all ≡ 1024) }
{
    let topics = three_topics(alloc).ok()?;
    Broker::<R, W, T>::new(alloc, topics, 64, true, workers, tickets).ok()
}

/// The same with these ledgers.
fn served<R, P, W, T>(
    rt: &R,
    alloc: Global,
    peers: &P,
    workers: Blank,
    tickets: Blank,
) -> Option<(bool, Result<Trace, ServerFault>)>
where
    R: Threads + Wait + Net + Clock + Log + Send + Sync,
    P: Peers + Send + Sync,
    W: Side + Send + Sync + 'static,
    T: Side + Send + Sync + 'static,
    requires workers { (workers.name ≡ W.name) × (workers.parts ≡ W.parts) × (W.parts ≡ W.all) × (W.all ≡ 257) }
    requires tickets { (tickets.name ≡ T.name) × (tickets.parts ≡ T.parts) × (T.parts ≡ T.all) × (T.all ≡ 1024) }
{
    let broker = broker_with::<R, W, T>(alloc, workers, tickets)?;
    served_at_a_port(rt, alloc, peers, broker)
}
