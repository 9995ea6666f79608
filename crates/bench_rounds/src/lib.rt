// Lists of calls (docs/CALLS.md) for a caller in C, to be timed (bench/): through the driver on cores,
// and through the calls by value. Both write what they end with; the answer is how many calls were
// carried out. Their arguments stay apart: so C passes them.

#![tactic(auto)]

use build_topology::Rows;
use call_runtime::ByValue;
use state::{Counters, Header, Runtime};
use types::SimDuration;

// What is compared, as far as there is room: the counters, GVT and how many are pending.
fn put_left(head: &Header, counters: Counters, out: &mut [u64]) {
    let left = [
        counters.processed_events,
        counters.emitted_events,
        counters.remote_events,
        counters.rounds,
        counters.null_messages,
        counters.worker_count,
        head.gvt.hi,
        head.gvt.lo,
        head.pending as u64,
    ];
    for (place, word) in out.iter_mut().zip(left) {
        *place = word;
    }
}

#[unsafe(no_mangle)]
pub extern "C" fn timed_cores<'a>(
    n: u64,
    lookahead: u64,
    ids: &'a [u32],
    sources: &'a [u32],
    counts: &'a [u64],
    destinations: &'a [u32],
    lookaheads: &'a [u64],
    words: &'a [u64],
    out: &mut [u64],
) -> u64 {
    let span = SimDuration::from_ticks(0, lookahead);
    let rows = Rows {
        sources,
        counts,
        destinations,
        lookaheads,
    };
    let done = call_list::rehearse(n, span, ids, rows, words);
    put_left(&done.state.head, done.counters, out);
    done.calls as u64
}

// All calls of the words, by value. No loop that counts: it ends where no call can be decoded.
fn call_all(mut state: Runtime, mut counters: Counters, words: &[u64], out: &mut [u64]) -> u64 {
    let mut at: usize = 0;
    let mut calls: u64 = 0;
    while let Some(count) = call_words::call_size(words, at) {
        let called = call_runtime::execute::<ByValue>(state, counters, words, at);
        state = called.state;
        counters = called.counters;
        at += count;
        calls += 1;
    }
    put_left(&state.head, counters, out);
    calls
}

#[unsafe(no_mangle)]
pub extern "C" fn timed_calls<'a>(
    n: u64,
    lookahead: u64,
    ids: &'a [u32],
    sources: &'a [u32],
    counts: &'a [u64],
    destinations: &'a [u32],
    lookaheads: &'a [u64],
    words: &'a [u64],
    out: &mut [u64],
) -> u64 {
    let span = SimDuration::from_ticks(0, lookahead);
    let rows = Rows {
        sources,
        counts,
        destinations,
        lookaheads,
    };
    let built = runtime::build(n, span, ids, rows, Counters::default());
    if built.answer.is_err() {
        return 0;
    }
    call_all(built.state, built.counters, words, out)
}
