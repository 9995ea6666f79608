// The calls as a host makes them: the state by value, "the counters, a small record lent and counted
// up where it is". Each takes the counters out of the loan, makes the call of `runtime` or `reads` by
// value, and stores the counters that it gives; hand back, whose reply is a slice of records, passes
// over them itself.

#![tactic(auto)]

ghost use Rattle.types.specs.Value.{ticks_of, duration_of};
ghost use Rattle.rules.specs.Build.{setup};
ghost use Rattle.rules.specs.Calls.{AddInitial, Begin, Step, HandBack};
ghost use Rattle.rules.specs.Reads.{read_gvt, read_counters, read_pending, read_earliest};
ghost use Rattle.host_hand_back.specs.Passes.{reply_of};
ghost use Rattle.state.specs.View.{message_of};
ghost use Rattle.build_topology.specs.Lookaheads.{lookaheads_for};
ghost use Rattle.runtime.specs.Builds.{Builds};
ghost use Rattle.runtime.specs.Executes.{Executes};
ghost use Rattle.reads.specs.Reads.{Reads};
ghost use Rattle.host.specs.HostBuildResult.{build_result_of};

use build::BuildRefusal;
use build_topology::Rows;
use reads::Reading;
use reply_words::Emission;
use state::{Answer, Counters, Message, Refusal, Runtime};
use types::{SimDuration, SimTime};

// What build gives a host: its answer and the runtime made.
#[derive(Clone, Copy)]
pub struct HostBuildResult {
    pub answer: Result<(), BuildRefusal>,
    pub state: Runtime,
}

// What a call on a runtime gives a host: its answer and the runtime left.
#[derive(Clone, Copy)]
pub struct HostCallResult {
    pub answer: Result<Answer, Refusal>,
    pub state: Runtime,
}

pub fn build(
    n: u64,
    lookahead: SimDuration,
    ids: &[u32],
    rows: Rows<'_>,
    counters: &mut Counters,
) -> HostBuildResult
    ensures { Builds (setup n (duration_of lookahead) ids.now rows.entry.sources.now rows.entry.counts.now rows.entry.destinations.now (lookaheads_for rows.entry.destinations.now rows.entry.lookaheads.now)) counters.old (build_result_of result counters.new) }
{
    let built = runtime::build(n, lookahead, ids, rows, *counters);
    *counters = built.counters;
    HostBuildResult {
        answer: built.answer,
        state: built.state,
    }
}

pub fn add_initial(state: Runtime, counters: &mut Counters, m: Message) -> HostCallResult
    ensures { Executes (AddInitial (message_of m)) state counters.old result.answer result.state counters.new }
{
    let added = runtime::add_initial(state, *counters, m);
    *counters = added.counters;
    HostCallResult {
        answer: added.answer,
        state: added.state,
    }
}

pub fn begin(
    state: Runtime,
    counters: &mut Counters,
    horizon: SimTime,
    budget: u64,
) -> HostCallResult
    ensures { Executes (Begin (ticks_of horizon) budget) state counters.old result.answer result.state counters.new }
{
    let begun = runtime::begin(state, *counters, horizon, budget);
    *counters = begun.counters;
    HostCallResult {
        answer: begun.answer,
        state: begun.state,
    }
}

pub fn step(state: Runtime, counters: &mut Counters) -> HostCallResult
    ensures { Executes Step state counters.old result.answer result.state counters.new }
{
    let stepped = runtime::step(state, *counters);
    *counters = stepped.counters;
    HostCallResult {
        answer: stepped.answer,
        state: stepped.state,
    }
}

// The reply is "a mask of failed processes and a lent list of emission records, each with its
// emitter", of any length: its emissions are passed twice, to be checked and to be queued, straight
// into the pending words of the state that is left.
pub fn hand_back(
    state: Runtime,
    counters: &mut Counters,
    mask: u64,
    reply: &[Emission],
) -> HostCallResult
    ensures { Executes (HandBack mask (reply_of reply.now)) state counters.old result.answer result.state counters.new }
{
    let opened = host_hand_back::open(state, mask);
    let start = opened.check;
    let check = host_reply::check_records(reply, &opened.words, state.head, start);
    let admission = host_hand_back::admit(state.head, check, reply.len());
    let mut left = state;
    let queued = host_reply::enqueue_records(reply, &mut left.pending, admission);
    let closed = host_hand_back::close(left, *counters, check, queued, reply.len());
    *counters = closed.counters;
    HostCallResult {
        answer: closed.answer,
        state: closed.state,
    }
}

pub fn read_gvt(state: Runtime, counters: &Counters) -> Result<Reading, Refusal>
    ensures { Reads read_gvt state counters.now result }
{
    reads::read_gvt(state, *counters)
}

pub fn read_counters(state: Runtime, counters: &Counters) -> Result<Reading, Refusal>
    ensures { Reads read_counters state counters.now result }
{
    reads::read_counters(state, *counters)
}

pub fn read_pending(state: Runtime, counters: &Counters) -> Result<Reading, Refusal>
    ensures { Reads read_pending state counters.now result }
{
    reads::read_pending(state, *counters)
}

pub fn read_earliest(state: Runtime, counters: &Counters) -> Result<Reading, Refusal>
    ensures { Reads read_earliest state counters.now result }
{
    reads::read_earliest(state, *counters)
}
