// Calls from words (docs/CALLS.md), carried out by the cores on lent arrays, and whole rehearsals: a
// build, and a list of calls on what it made. No state is copied from call to call.

#![tactic(auto)]

ghost use Rattle.std.specs.Prelude.{◌<◌, ◌≡◌};
ghost use Rattle.state.specs.ValidArrays.{ValidArrays};
ghost use Rattle.call_words.specs.Decode.{decode, size, call_of};
ghost use Rattle.call_list.specs.Executes.{CanAddOrBegin, AddsOrBegins, ExecutesAddOrBegin, Executes};
ghost use Rattle.types.specs.Value.{duration_of};
ghost use Rattle.rules.specs.Build.{setup};
ghost use Rattle.call_list.specs.Runs.{RunsCalls};
ghost use Rattle.words.specs.Words.{zeroes};
ghost use Rattle.build_topology.specs.Lookaheads.{lookaheads_for};
ghost use Rattle.build.specs.Initialized.{CanInitialize};
ghost use Rattle.call_list.specs.Rehearses.{RehearsesAccepted, Rehearses};

use build::BuildRefusal;
use build_topology::Rows;
use call_words::{BEGIN, STEP};
use state::{CoreResult, Counters, Header, HeaderResult, Runtime};
use types::SimDuration;

// Add initial or begin, which count nothing.
fn add_or_begin(
    head: Header,
    edges: &[u64],
    pending: &mut [u64],
    words: &[u64],
    at: usize,
) -> HeaderResult
    requires { CanAddOrBegin head edges.now pending.old words.now at }
    ensures { AddsOrBegins (call_of (decode words.now at)) head edges.now pending.old result pending.new }
{
    if words[at] == BEGIN {
        let horizon = words::tick_in(words, at + 1);
        return begin_run::begin(head, horizon, words[at + 3]);
    }
    let m = call_words::message_in(words, at + 1);
    schedule_initial::add_initial(head, edges, pending, m)
}

fn execute_add_or_begin(
    head: Header,
    counters: Counters,
    edges: &[u64],
    pending: &mut [u64],
    words: &[u64],
    at: usize,
) -> CoreResult
    requires { CanAddOrBegin head edges.now pending.old words.now at }
    ensures { ExecutesAddOrBegin (call_of (decode words.now at)) head counters edges.now pending.old result pending.new }
{
    let headed = add_or_begin(head, edges, pending, words, at);
    CoreResult {
        answer: headed.answer,
        head: headed.head,
        counters,
    }
}

// Carries out the call at that place, which can be decoded.
pub fn execute(
    head: Header,
    counters: Counters,
    edges: &mut [u64],
    pending: &mut [u64],
    processes: &mut [u64],
    batch: &mut [u64],
    words: &[u64],
    at: usize,
) -> CoreResult
    requires { ValidArrays head edges.old pending.old processes.old batch.old × (0 < size (decode words.now at)) }
    ensures { Executes (call_of (decode words.now at)) head counters edges.old pending.old processes.old batch.old result edges.new pending.new processes.new batch.new }
{
    let tag = words[at];
    if tag < STEP {
        return execute_add_or_begin(head, counters, edges, pending, words, at);
    }
    if tag == STEP {
        return step::step(head, counters, edges, pending, processes, batch);
    }
    let mask = words[at + 1];
    let reply = call_words::reply_in(words, at);
    hand_back::hand_back(
        head, counters, edges, pending, processes, batch, mask, reply,
    )
}

// What carrying out all calls of the words leaves, and how many there were.
#[derive(Clone, Copy)]
pub struct RunResult {
    pub head: Header,
    pub counters: Counters,
    pub calls: usize,
}

// What a rehearsal gives: what build answered, and the runtime and the counters that the calls left.
#[derive(Clone, Copy)]
pub struct RehearsalResult {
    pub answer: Result<(), BuildRefusal>,
    pub state: Runtime,
    pub counters: Counters,
    pub calls: usize,
}

// Carries out all calls of the words. What cannot be decoded, or the end, ends them.
fn run_calls(
    mut head: Header,
    edges: &mut [u64],
    pending: &mut [u64],
    processes: &mut [u64],
    batch: &mut [u64],
    words: &[u64],
) -> RunResult
    requires { ValidArrays head edges.old pending.old processes.old batch.old }
    ensures { RunsCalls head edges.old pending.old processes.old batch.old words.now result edges.new pending.new processes.new batch.new }
{
    let mut counters = state::zero_counters();
    let mut at: usize = 0;
    let mut calls: usize = 0;
    // Kept by hand: no counting loop, since each call says how many words it takes.
    while let Some(count) = call_words::call_size(words, at) {
        let after = execute(head, counters, edges, pending, processes, batch, words, at);
        head = after.head;
        counters = after.counters;
        at += count;
        calls += 1;
    }
    RunResult {
        head,
        counters,
        calls,
    }
}

// A rehearsal of a build that was accepted.
fn rehearse_accepted(
    n: u64,
    lookahead: SimDuration,
    rows: Rows<'_>,
    words: &[u64],
) -> RehearsalResult
    requires { CanInitialize n (duration_of lookahead) rows.sources.now rows.counts.now rows.destinations.now rows.lookaheads.now (zeroes 3072) (zeroes 256) }
    ensures { RehearsesAccepted n (duration_of lookahead) rows.entry.sources.now rows.entry.counts.now rows.entry.destinations.now rows.entry.lookaheads.now words.now result }
{
    let mut edges = [0u64; 3072];
    let mut pending = [0u64; 4096];
    let mut processes = [0u64; 256];
    let mut batch = [0u64; 512];
    let head = build::initialize(n, lookahead, rows, &mut edges, &mut processes);
    let ran = run_calls(
        head,
        &mut edges,
        &mut pending,
        &mut processes,
        &mut batch,
        words,
    );
    RehearsalResult {
        answer: Ok(()),
        state: Runtime {
            edges,
            pending,
            processes,
            batch,
            head: ran.head,
        },
        counters: ran.counters,
        calls: ran.calls,
    }
}

// Build, and all calls of the words on what it made. A refused build carries out nothing.
pub fn rehearse(
    n: u64,
    lookahead: SimDuration,
    ids: &[u32],
    rows: Rows<'_>,
    words: &[u64],
) -> RehearsalResult
    ensures { Rehearses (setup n (duration_of lookahead) ids.now rows.entry.sources.now rows.entry.counts.now rows.entry.destinations.now (lookaheads_for rows.entry.destinations.now rows.entry.lookaheads.now)) words.now result }
{
    match build::check(n, lookahead, ids, rows) {
        Ok(()) => rehearse_accepted(n, lookahead, rows, words),
        Err(refusal) => RehearsalResult {
            answer: Err(refusal),
            state: build::empty_runtime(),
            counters: state::zero_counters(),
            calls: 0,
        },
    }
}
