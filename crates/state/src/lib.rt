// What a runtime is made of: its header, which stands beside four arrays of words, its counters, and
// what its calls answer. specs/View.antt says which state of the rules a header and its arrays are.

#![tactic(auto)]

ghost use Rattle.std.specs.Prelude.{◌≡◌, ◌+◌, ltb};
ghost use Rattle.rules.specs.State.{saturating_add, max_count, max_pending};
ghost use Rattle.state.specs.View.{zero_counters};

use types::{LpId, MAX_COUNT, MAX_PENDING, SimDuration, SimTime};

// The small fields of a runtime. `edges`, `pending` and `batch` are how many there are; `next` is the
// next sequence number; `stored` says whether `horizon` and `budget` are set; `initial`, that initial
// events are open; `running`, that a run is open. `stored` is kept beside what it tells of, and is no
// Option: the rules' view (`stored_of`) reads the three apart, and a state given whole has them all.
#[derive(Clone, Copy, Default)]
pub struct Header {
    pub n: usize,
    pub lookahead: SimDuration,
    pub edges: usize,
    pub pending: usize,
    pub batch: usize,
    pub next: u64,
    pub gvt: SimTime,
    pub stored: bool,
    pub horizon: SimTime,
    pub budget: u64,
    pub used: u64,
    pub initial: bool,
    pub running: bool,
    pub poisoned: bool,
}

// A runtime by value: its edges, its pending events, a table with two ticks of each process, and the
// batch in hand. The table has the local horizons and, from place 64 on, the least inbound bounds. Queues
// are flat words, as document 01 has them. The cores are lent the arrays one by one and no `&mut Runtime`:
// a signature then says which of them a call may write, where else each contract would have to. The
// header comes last: a search for a fact enters only so many records, and has to come to the arrays.
#[derive(Clone, Copy)]
pub struct Runtime {
    pub edges: [u64; 3072],
    pub pending: [u64; 4096],
    pub processes: [u64; 256],
    pub batch: [u64; 512],
    pub head: Header,
}

// The counters of the report.
#[derive(Clone, Copy, Default)]
pub struct Counters {
    pub processed_events: u64,
    pub emitted_events: u64,
    pub remote_events: u64,
    pub rounds: u64,
    pub null_messages: u64,
    pub worker_count: u64,
}

// An event before it is accepted: its payload is `len` bytes, the first 16 of them in two words, first
// byte highest.
#[derive(Clone, Copy)]
pub struct Message {
    pub source: LpId,
    pub destination: LpId,
    pub tick: SimTime,
    pub len: u64,
    pub payload_hi: u64,
    pub payload_lo: u64,
}

// What add initial, begin, step and hand back answer where they don't refuse. The events of a batch are
// those in hand in the state left.
#[derive(Clone, Copy)]
pub enum Answer {
    Accepted,
    Batch(SimTime),
    Advanced(SimTime),
    Finished(SimTime),
    Committed(SimTime),
}

// Why they refuse. specs/Numbers.antt has document 01's number and values of each.
#[derive(Clone, Copy)]
pub enum Refusal {
    ForeignState,
    Poisoned,
    InitialEventsAlreadyClosed,
    UnknownInitialSource(LpId),
    UnknownInitialDestination(LpId),
    InitialRouteMissing(LpId, LpId),
    PayloadTooLong(u64),
    QueueFull,
    EventSequenceOverflow,
    RunOpen,
    HorizonRegression(SimTime, SimTime),
    HorizonOverflow(SimTime),
    NothingToStep,
    EventBudgetExceeded(u64),
    NoBatch,
    MalformedReply,
    HandlerFailed(LpId),
    OutboundSourceMismatch(LpId, LpId),
    UnknownOutboundDestination(LpId),
    OutboundRouteMissing(LpId, LpId),
    LookaheadOverflow(LpId, SimTime, SimDuration),
    OutboundLookaheadViolation(LpId, SimTime, SimTime, SimTime),
    Straggler(LpId, SimTime, SimTime),
}

// An answer and the header left with it.
#[derive(Clone, Copy)]
pub struct HeaderResult {
    pub answer: Result<Answer, Refusal>,
    pub head: Header,
}

// What a step or a hand back gives: its answer, with the header and the counters left.
#[derive(Clone, Copy)]
pub struct CoreResult {
    pub answer: Result<Answer, Refusal>,
    pub head: Header,
    pub counters: Counters,
}

// Nothing is counted yet.
pub fn zero_counters() -> Counters
    ensures { result ≡ zero_counters }
{
    Counters::default()
}

// "Counters, used among them, stop at 2^64 - 1."
pub fn saturating_add(count: u64, by: u64) -> u64
    ensures { result ≡ saturating_add count by }
{
    count.saturating_add(by)
}

// 18: so many events more would not fit.
pub fn is_queue_full(pending: usize, more: usize) -> bool
    ensures { result ≡ ltb max_pending (pending + more) }
{
    if MAX_PENDING < pending {
        return true;
    }
    MAX_PENDING - pending < more
}

// 19: the next sequence number after so many events more would pass 2^64 - 1.
pub fn sequence_exhausted(next: u64, more: u64) -> bool
    ensures { result ≡ ltb max_count (next + more) }
{
    MAX_COUNT - next < more
}
