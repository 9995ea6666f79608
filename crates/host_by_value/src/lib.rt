// The calls of `host` with plain parameters: the counters are a local that is lent for the call, and a
// reply is the front of an array.

#![tactic(auto)]

ghost use Rattle.std.specs.Prelude.{◌≤◌, take};
ghost use Rattle.types.specs.Value.{ticks_of, duration_of};
ghost use Rattle.rules.specs.Build.{setup};
ghost use Rattle.rules.specs.Calls.{AddInitial, Begin, Step, HandBack};
ghost use Rattle.rules.specs.Reads.{read_gvt, read_counters, read_pending, read_earliest};
ghost use Rattle.host_hand_back.specs.Passes.{reply_of};
ghost use Rattle.state.specs.View.{message_of};
ghost use Rattle.build_topology.specs.Lookaheads.{lookaheads_for};
ghost use Rattle.runtime.specs.Builds.{Builds};
ghost use Rattle.runtime.specs.Executes.{Executes};
ghost use Rattle.reads.specs.Reads.{Reads};

use build_topology::Rows;
use reads::Reading;
use reply_words::Emission;
use runtime::{BuildResult, CallResult};
use state::{Counters, Message, Refusal, Runtime};
use types::{MAX_PENDING, SimDuration, SimTime};

pub fn build(
    n: u64,
    lookahead: SimDuration,
    ids: &[u32],
    rows: Rows<'_>,
    counters: Counters,
) -> BuildResult
    ensures { Builds (setup n (duration_of lookahead) ids.now rows.entry.sources.now rows.entry.counts.now rows.entry.destinations.now (lookaheads_for rows.entry.destinations.now rows.entry.lookaheads.now)) counters result }
{
    let mut counted = counters;
    let built = host::build(n, lookahead, ids, rows, &mut counted);
    BuildResult {
        answer: built.answer,
        state: built.state,
        counters: counted,
    }
}

pub fn add_initial(state: Runtime, counters: Counters, m: Message) -> CallResult
    ensures { Executes (AddInitial (message_of m)) state counters result.answer result.state result.counters }
{
    let mut counted = counters;
    let added = host::add_initial(state, &mut counted, m);
    CallResult {
        answer: added.answer,
        state: added.state,
        counters: counted,
    }
}

pub fn begin(state: Runtime, counters: Counters, horizon: SimTime, budget: u64) -> CallResult
    ensures { Executes (Begin (ticks_of horizon) budget) state counters result.answer result.state result.counters }
{
    let mut counted = counters;
    let begun = host::begin(state, &mut counted, horizon, budget);
    CallResult {
        answer: begun.answer,
        state: begun.state,
        counters: counted,
    }
}

pub fn step(state: Runtime, counters: Counters) -> CallResult
    ensures { Executes Step state counters result.answer result.state result.counters }
{
    let mut counted = counters;
    let stepped = host::step(state, &mut counted);
    CallResult {
        answer: stepped.answer,
        state: stepped.state,
        counters: counted,
    }
}

// The reply is the first `count` emissions. There is room for as many as there are places for pending
// events: a longer reply is never accepted.
pub fn hand_back(
    state: Runtime,
    counters: Counters,
    mask: u64,
    emissions: [Emission; MAX_PENDING],
    count: usize,
) -> CallResult
    requires { count ≤ 512 }
    ensures { Executes (HandBack mask (reply_of (take count emissions))) state counters result.answer result.state result.counters }
{
    let reply = &emissions[..count];
    let mut counted = counters;
    let handed = host::hand_back(state, &mut counted, mask, reply);
    CallResult {
        answer: handed.answer,
        state: handed.state,
        counters: counted,
    }
}

pub fn read_gvt(state: Runtime, counters: Counters) -> Result<Reading, Refusal>
    ensures { Reads read_gvt state counters result }
{
    host::read_gvt(state, &counters)
}

pub fn read_counters(state: Runtime, counters: Counters) -> Result<Reading, Refusal>
    ensures { Reads read_counters state counters result }
{
    host::read_counters(state, &counters)
}

pub fn read_pending(state: Runtime, counters: Counters) -> Result<Reading, Refusal>
    ensures { Reads read_pending state counters result }
{
    host::read_pending(state, &counters)
}

pub fn read_earliest(state: Runtime, counters: Counters) -> Result<Reading, Refusal>
    ensures { Reads read_earliest state counters result }
{
    host::read_earliest(state, &counters)
}
