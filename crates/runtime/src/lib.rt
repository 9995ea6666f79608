// The runtime's calls. States and answers go in and come back by value, and no call asks anything of
// its caller.

#![tactic(auto)]

ghost use Rattle.std.specs.Prelude.{◌≡◌, true, ◌/◌, length};
ghost use Rattle.types.specs.Value.{ticks_of, duration_of};
ghost use Rattle.words.specs.Words.{zeroes};
ghost use Rattle.rules.specs.Foreign.{foreign};
ghost use Rattle.rules.specs.Build.{setup};
ghost use Rattle.rules.specs.Calls.{Call, AddInitial, Begin, Step, HandBack};
ghost use Rattle.reply_words.specs.Emissions.{emissions_of};
ghost use Rattle.state.specs.declared.Refusal.TheVariants.{ForeignState};
ghost use Rattle.state.specs.View.{view_of, message_of};
ghost use Rattle.build_topology.specs.Lookaheads.{lookaheads_for};
ghost use Rattle.build.specs.Initialized.{CanInitialize};
ghost use Rattle.runtime.specs.Builds.{Makes, Builds};
ghost use Rattle.runtime.specs.Executes.{Executes};

use build::BuildRefusal;
use build_topology::Rows;
use state::{Answer, Counters, Message, Refusal, Runtime};
use types::{SimDuration, SimTime};

// What build gives: its answer, the runtime made and the counters left. A struct beside the answer,
// since a refusal leaves both too.
#[derive(Clone, Copy)]
pub struct BuildResult {
    pub answer: Result<(), BuildRefusal>,
    pub state: Runtime,
    pub counters: Counters,
}

// What a call on a runtime gives: its answer, with the runtime and the counters left, by a refusal too.
#[derive(Clone, Copy)]
pub struct CallResult {
    pub answer: Result<Answer, Refusal>,
    pub state: Runtime,
    pub counters: Counters,
}

// The runtime of an accepted build.
fn make_runtime(n: u64, lookahead: SimDuration, rows: Rows<'_>) -> Runtime
    requires { CanInitialize n (duration_of lookahead) rows.sources.now rows.counts.now rows.destinations.now rows.lookaheads.now (zeroes 3072) (zeroes 256) }
    ensures { Makes n (duration_of lookahead) rows.entry.sources.now rows.entry.counts.now rows.entry.destinations.now rows.entry.lookaheads.now result }
{
    let mut edges = [0u64; 3072];
    let mut processes = [0u64; 256];
    let head = build::initialize(n, lookahead, rows, &mut edges, &mut processes);
    Runtime {
        edges,
        pending: [0; 4096],
        processes,
        batch: [0; 512],
        head,
    }
}

// Build takes n, L, the process ids and the rows: their sources, how many destinations each takes, and
// the lists from which the rows take their destinations and these their lookaheads in turn, two words
// each, the upper half first. A refused build makes nothing: its state has no processes, so that every
// later call refuses it with 11. Kept as an early return: of a match on what the check says, either arm
// zeroed and copied a state more.
pub fn build(
    n: u64,
    lookahead: SimDuration,
    ids: &[u32],
    rows: Rows<'_>,
    counters: Counters,
) -> BuildResult
    ensures { Builds (setup n (duration_of lookahead) ids.now rows.entry.sources.now rows.entry.counts.now rows.entry.destinations.now (lookaheads_for rows.entry.destinations.now rows.entry.lookaheads.now)) counters result }
{
    if let Err(refusal) = build::check(n, lookahead, ids, rows) {
        return BuildResult {
            answer: Err(refusal),
            state: build::empty_runtime(),
            counters,
        };
    }
    BuildResult {
        answer: Ok(()),
        state: make_runtime(n, lookahead, rows),
        counters: state::zero_counters(),
    }
}

// 11 refuses any call: state and counters come back as given.
fn refuse_foreign(state: Runtime, counters: Counters, why: Refusal) -> CallResult
    requires { (why ≡ ForeignState) × (foreign (view_of state) ≡ true) }
    ensures { (k : Call) → Executes k state counters result.answer result.state result.counters }
{
    CallResult {
        answer: Err(why),
        state,
        counters,
    }
}

// Each call on a runtime is 11, then its core.
pub fn begin(mut state: Runtime, counters: Counters, horizon: SimTime, budget: u64) -> CallResult
    ensures { Executes (Begin (ticks_of horizon) budget) state counters result.answer result.state result.counters }
{
    if let Err(refusal) = foreign::check(&state) {
        return refuse_foreign(state, counters, refusal);
    }
    let begun = begin_run::begin(state.head, horizon, budget);
    state.head = begun.head;
    CallResult {
        answer: begun.answer,
        state,
        counters,
    }
}

pub fn add_initial(mut state: Runtime, counters: Counters, m: Message) -> CallResult
    ensures { Executes (AddInitial (message_of m)) state counters result.answer result.state result.counters }
{
    if let Err(refusal) = foreign::check(&state) {
        return refuse_foreign(state, counters, refusal);
    }
    let added = schedule_initial::add_initial(state.head, &state.edges, &mut state.pending, m);
    state.head = added.head;
    CallResult {
        answer: added.answer,
        state,
        counters,
    }
}

pub fn step(mut state: Runtime, counters: Counters) -> CallResult
    ensures { Executes Step state counters result.answer result.state result.counters }
{
    if let Err(refusal) = foreign::check(&state) {
        return refuse_foreign(state, counters, refusal);
    }
    let stepped = step::step(
        state.head,
        counters,
        &mut state.edges,
        &mut state.pending,
        &mut state.processes,
        &mut state.batch,
    );
    state.head = stepped.head;
    CallResult {
        answer: stepped.answer,
        state,
        counters: stepped.counters,
    }
}

// The reply has eight words to an emission; words that make no whole one are passed over.
pub fn hand_back(mut state: Runtime, counters: Counters, mask: u64, reply: &[u64]) -> CallResult
    ensures { Executes (HandBack mask (emissions_of (length reply.now / 8) reply.now)) state counters result.answer result.state result.counters }
{
    if let Err(refusal) = foreign::check(&state) {
        return refuse_foreign(state, counters, refusal);
    }
    let handed = hand_back::hand_back(
        state.head,
        counters,
        &state.edges,
        &mut state.pending,
        &mut state.processes,
        &mut state.batch,
        mask,
        reply,
    );
    state.head = handed.head;
    CallResult {
        answer: handed.answer,
        state,
        counters: handed.counters,
    }
}
