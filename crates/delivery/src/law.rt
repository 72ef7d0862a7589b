//! Laws: functions that do nothing, whose contracts are theorems about every run or step of the core.

ghost use Rattle.delivery.specs.Core.Connections.{FramesPass, OpenAreLive, OtherConnectionsStay, UnsubscribesFind};
ghost use Rattle.delivery.specs.Core.Delivery.{RunsDeliver, StepsAreKept};
ghost use Rattle.delivery.specs.Core.Answered.{RunsDeliverAnswers};
ghost use Rattle.delivery.specs.Core.Stepped.{StepsHaveStepped};
ghost use Rattle.delivery.specs.Theorem.Answers.{MovesAreAnswered};
ghost use Rattle.delivery.specs.Theorem.Examples.{WorkedRows};
ghost use Rattle.delivery.specs.Theorem.Laws.{AcceptedIsDue, AgreedInSenderOrder, AgreedOnce};
ghost use Rattle.delivery.specs.Theorem.Laws.{CancelFindsItsPart, ClosedIsSilent, CommitsAreKept};
ghost use Rattle.delivery.specs.Theorem.Laws.{EntriesAreOwned, EntriesAreThere, FoundIsLearnt};
ghost use Rattle.delivery.specs.Theorem.Laws.{HandedIsPrefix, LagsWhereFull, NoneIsPendingTwice};
ghost use Rattle.delivery.specs.Theorem.Laws.{NumbersAreFree, OddNeverComes, OthersUntouched};
ghost use Rattle.delivery.specs.Theorem.Laws.{RefusalsAreReported, RefusalsChangeNothing, ReleasedIsLogged, SeqsCount};
ghost use Rattle.delivery.specs.Theorem.Laws.{SettledLeavesNoneOut, SharedInOneOrder, StampIsGreatest};
ghost use Rattle.delivery.specs.Theorem.Laws.{TicketIsOwn, TopicsAreSound, TurnIsItsSteps, TurnedIsLogged};
ghost use Rattle.delivery.specs.Theorem.Laws.{WithdrawnIsUndecided};
ghost use Rattle.delivery.specs.Theorem.Tied.{SendersAreFloored, TopicsAreTied};
ghost use Rattle.delivery.specs.Theorem.Laws.{LogCountsReleases, LogIsAgreed, LogIsOfAnswers};
ghost use Rattle.delivery.specs.Theorem.Spans.{ClosedAsAnswered, ClosedStays, ClosesAreAnswered, LagsEndBeforeRow};
ghost use Rattle.delivery.specs.Theorem.Spans.{QueuesGrow, SpansEndAtFrontier};
ghost use Rattle.delivery.specs.Theorem.Reported.{EndsAreAnswered, EndsStay, BegunIsOwn, QueuesAreBounded};
ghost use Rattle.delivery.specs.Theorem.Reported.{ClaimsGoOn, RestingAreIdle, SendersAreOwn, SendersStay};
ghost use Rattle.delivery.specs.Theorem.Reported.{SpansBeginAsAnswered, SpansBeginAtFrontier};
ghost use Rattle.delivery.specs.Theorem.Reported.{SpansEndAsAnswered};
ghost use Rattle.delivery.specs.NetLaws.{NetsAreRuns, NetsAreSound, NetsAreTied, NoneFailsTwice, NothingOddComes};
ghost use Rattle.delivery.specs.Traces.{RunsAreExplained, TracesAreAccepted, TracesAreComplete};

/// The core's commit list is that of the decisions in the run.
pub fn commits()
    ensures { CommitsAreKept }
{}

/// What a subscription's queue has accepted is the agreed sequence of committed transactions, restricted
/// to its topic and span, up to the topic's frontier: whole parts, taken or not.
pub fn accepted()
    ensures { AcceptedIsDue }
{}

/// No transaction and no stamp stands twice in the agreed sequence.
pub fn each_once()
    ensures { AgreedOnce }
{}

/// Each sender's transactions come in its order in the agreed sequence.
pub fn fifo_order()
    ensures { AgreedInSenderOrder }
{}

/// Two subscriptions have the transactions that they share in one order.
pub fn total_order()
    ensures { SharedInOneOrder }
{}

/// A transaction's stamp is the greatest of the tickets that it was given.
pub fn stamps()
    ensures { StampIsGreatest }
{}

/// A settled topic leaves no committed transaction out: each that names it stands in its log, at most at
/// its frontier.
pub fn validity()
    ensures { SettledLeavesNoneOut }
{}

/// Each topic is sound: its log rises, its frontier is the stamp of the last row, and nothing was drained.
pub fn topics_are_sound()
    ensures { TopicsAreSound }
{}

/// A refused event changes nothing.
pub fn refusals_change_nothing()
    ensures { RefusalsChangeNothing }
{}

/// An event at one topic changes no other, and only the topics that a transaction names give it a ticket,
/// each computed from its own clock and the sender's floor.
pub fn genuine()
    ensures others { OthersUntouched }
    ensures tickets { TicketIsOwn }
{}

/// No verdict is refused as another's or as a clash, no decided part is cancelled, each other refusal of a move is
/// one that the core reports, but for a commit of a sender without sequence numbers or of a connection without a
/// sender, and for what stands against speaking for a sender; a ticket that is to be cancelled has its part pending, no
/// topic refuses a part because its transaction is pending there, and no transaction is both withdrawn and decided.
pub fn never()
    ensures refused { OddNeverComes }
    ensures reported { RefusalsAreReported }
    ensures in_turns { FoundIsLearnt }
    ensures cancels { CancelFindsItsPart }
    ensures proposals { NoneIsPendingTwice }
    ensures withdrawals { WithdrawnIsUndecided }
{}

/// No topic refuses a subscription because its number is in use; each subscription that isn't closed
/// has its entry at its topic, and a topic has no other entry.
pub fn subscriptions()
    ensures begin { NumbersAreFree }
    ensures end { EntriesAreThere }
    ensures owned { EntriesAreOwned }
{}

/// A turn is its steps: a learn for each part that was pending, in their order, and then as many
/// releases; those that find nothing are refused. A topic's log gets the row of the transaction that
/// a release's outcome names, and as many rows as a turn's outcome says.
pub fn turns()
    ensures steps { TurnIsItsSteps }
    ensures released { ReleasedIsLogged }
    ensures turned { TurnedIsLogged }
{}

/// An open subscription lags exactly at a release at its topic where as many items as its capacity
/// weren't handed on, and no queue ever holds more. Apart from UNSUBSCRIBE, nothing else ends a span: a release
/// or a turn of its topic does, and its queue is full then.
pub fn lags_only_where_full()
    ensures releases { LagsWhereFull }
    ensures bound { QueuesAreBounded }
    ensures ends { EndsAreAnswered }
{}

/// What was handed on of a subscription is a prefix of what its queue has accepted.
pub fn handed_prefix()
    ensures { HandedIsPrefix }
{}

/// Nothing is handed on of a subscription after it was unsubscribed, or after its connection was
/// closed by itself, by an ERROR, by a withdrawal or by loss.
pub fn silent_after_close()
    ensures { ClosedIsSilent }
{}

/// The seq of each transaction counts those that its sender has made, from 1.
pub fn numbers()
    ensures { SeqsCount }
{}

/// A transaction that is made has all SENDs of its frame, in their order, and its sender is the one that its connection
/// speaks for. No two connections that aren't gone speak for one sender. One that isn't in use has no undecided
/// transaction and nothing to cancel; who goes on as it has its seq and its floor, and all else of it, as they were,
/// and speaks for it until the end.
pub fn flights()
    ensures own { BegunIsOwn }
    ensures sender { SendersAreOwn }
    ensures resting { RestingAreIdle }
    ensures goes_on { ClaimsGoOn }
    ensures stays { SendersStay }
{}

/// A subscription's span has the topic and the beginning that SUBSCRIBE was answered, which is its topic's frontier
/// then, and the end that UNSUBSCRIBE was answered; an end that is there stays. A span that is open until it is closed
/// ends with its topic's frontier; one that lags ends with the frontier before the row for which its queue had no room.
pub fn spans()
    ensures begins { SpansBeginAsAnswered }
    ensures ends { SpansEndAsAnswered }
    ensures frontier { SpansBeginAtFrontier }
    ensures stays { EndsStay }
    ensures until_frontier { SpansEndAtFrontier }
    ensures before_row { LagsEndBeforeRow }
{}

/// A subscription is closed by the event that is answered its end, and by no other. What is left of it has that
/// end, what its queue had accepted before, and the cause: it has lagged where its span had an end before, and
/// else it was asked. All of it stays as it is at each later event.
pub fn closed()
    ensures left { ClosedAsAnswered }
    ensures alone { ClosesAreAnswered }
    ensures stays { ClosedStays }
{}

/// A queue only grows: what it has accepted stays, and each event adds to its end alone.
pub fn queues()
    ensures { QueuesGrow }
{}

/// A topic's log is the agreed sequence restricted to the topic, up to its frontier, and it has as many rows as
/// releases and turns of the topic were answered. So the outcomes alone say what it is.
pub fn logs()
    ensures agreed { LogIsAgreed }
    ensures count { LogCountsReleases }
    ensures of_outcomes { LogIsOfAnswers }
{}

/// Each event is answered by an outcome of its own, whatever the core holds: the outcome names the event's connection,
/// topic, subscription and transaction, and a proposal fails for memory only where there was none.
pub fn answers()
    ensures { MovesAreAnswered }
{}

/// A topic is tied to the tickets that it gave: their numbers rise along the run, above its opening clock, and its
/// pending parts are exactly those of its uncancelled tickets whose transactions aren't in its log. A sender's floor
/// is the stamp of its last committed transaction, or zero, whatever was withdrawn.
pub fn tied()
    ensures topics { TopicsAreTied }
    ensures senders { SendersAreFloored }
{}

/// Seven worked examples: transactions that cross, a withdrawal, a loss, a DISCONNECT before an item is delivered, a
/// lag, a sender that outlives its connection, and one that does so after a withdrawal. What comes of each event, what
/// logs and queues hold, and how each span ends, is computed.
pub fn examples()
    ensures { WorkedRows }
{}

/// A net whose report is answered for is a run of the machine: its core is the machine after its moves, its account is
/// what the machine answered, and its topics open with its clocks. So each law of runs here is one of nets. Drawn out:
/// each topic is tied to the tickets that it gave; each topic is sound; no verdict is another's and none clashes, no
/// decided part is cancelled, and no proposal finds its transaction pending.
pub fn nets()
    ensures runs { NetsAreRuns }
    ensures tied { NetsAreTied }
    ensures sound { NetsAreSound }
    ensures odd { NothingOddComes }
    ensures twice { NoneFailsTwice }
{}

/// Every run of the core is delivered: what was read are the first frames of each connection's octets; what the run
/// tells is read off its events, these frames and the outcomes alone; and each commit, log, span, queue and octet
/// out that the core reports is the one that they tell. The steps may be refused, may find no memory, and may cut a
/// stream anywhere. The same is said in the words of the machine's answers, with each item that was handed on whole.
pub fn delivery()
    ensures told { RunsDeliver }
    ensures answered { RunsDeliverAnswers }
{}

/// Each step of a run of the core, whatever came before it, and so each step of a net: its outcome is one that its
/// event may have; what is refused changes nothing; an event at one topic changes no other; tickets, stamps, items and
/// ends of spans are as the rules say.
pub fn steps()
    ensures { StepsHaveStepped }
{}

/// A kept run has one list of steps: what each of its events read is decided by the octets that were fed and by the
/// outcomes, and by nothing else.
pub fn readings()
    ensures { StepsAreKept }
{}

/// What an open connection's session has open are the connection's subscriptions that aren't closed, so an
/// UNSUBSCRIBE that it accepts ends one of them, and 48 never comes of a Next. Of the frames that their sessions and
/// their claims let pass the machine refuses but a transaction whose sender has no number left. An event of one
/// connection changes no other: a Take is of its subscription's.
pub fn connections()
    ensures live { OpenAreLive }
    ensures ends { UnsubscribesFind }
    ensures pass { FramesPass }
    ensures others { OtherConnectionsStay }
{}

/// The trace of every run is explained, so an audit of it is a yes unless memory runs out, and complete where all of
/// its topics are settled.
pub fn traces_are_explained()
    ensures explained { RunsAreExplained }
    ensures accepted { TracesAreAccepted }
    ensures complete { TracesAreComplete }
{}
