// 11 on the program's state: a header beside its arrays. Its tests, by what is read for them, are in
// specs/Tests.antt.

#![tactic(auto)]

ghost use Rattle.std.specs.Prelude.{◌≡◌, ◌*◌, ◌≤◌, ◌<◌, length};
ghost use Rattle.words.specs.Words.{inbounds_of};
ghost use Rattle.rules.specs.Base.{up_to, any, any_of};
ghost use Rattle.rules.specs.Foreign.{horizon_is_max};
ghost use Rattle.records.specs.Records.{edges_of, events_of};
ghost use Rattle.state.specs.View.{view_of};
ghost use Rattle.foreign.specs.Checks.{ChecksForeign};
ghost use Rattle.foreign.specs.Tests.{size_tests, count_tests, stored_in, run_tests, header_tests, differs_at, edge_tests, pending_tests, batch_tests, IsForeign};

use state::{Header, Refusal, Runtime};
use types::{MAX_EDGES, MAX_PENDING, MAX_PROCESSES, SimTime};

// Of the process count and the lookahead.
fn invalid_size(head: Header) -> bool
    ensures { result ≡ any_of (size_tests head) }
{
    if types::invalid_process_count(head.n as u64) {
        return true;
    }
    let lookahead = head.lookahead;
    lookahead.is_zero()
}

// Of the counts of what stands in the arrays.
fn over_limit(head: Header) -> bool
    ensures { result ≡ any_of (count_tests head) }
{
    if MAX_EDGES < head.edges {
        return true;
    }
    if MAX_PENDING < head.pending {
        return true;
    }
    MAX_PROCESSES < head.batch as u64
}

// Whether a stored horizon is the largest tick: no tick is above it.
fn horizon_is_max(head: Header) -> bool
    ensures { result ≡ horizon_is_max (stored_in head) }
{
    if !head.stored {
        return false;
    }
    let horizon = head.horizon;
    let largest = SimTime::largest();
    !horizon.lt(largest)
}

// With a run open only the horizon can be missing; without one, a batch is too much.
fn invalid_run(head: Header) -> bool
    ensures { result ≡ any_of (run_tests head) }
{
    if horizon_is_max(head) {
        return true;
    }
    if head.running {
        return !head.stored;
    }
    0 < head.batch
}

// All that 11 asks of the header.
fn invalid_header(head: Header) -> bool
    ensures { result ≡ any_of (header_tests head) }
{
    if invalid_size(head) {
        return true;
    }
    if over_limit(head) {
        return true;
    }
    invalid_run(head)
}

// The pass over the edges makes the record anew, and the state's is held against it.
fn invalid_edges<'a>(edges: &'a [u64], count: usize, n: u64, processes: &'a [u64]) -> bool
    requires { (6 * count ≤ length edges.now) × (n ≤ 64) × (length processes.now ≡ 256) }
    ensures { result ≡ any_of (edge_tests n (edges_of count edges.now) (inbounds_of n processes.now)) }
{
    let mut made = [0u64; 256];
    if edges::invalid_edges(edges, count, n, &mut made) {
        return true;
    }
    wrong_record(processes, &made, n as usize)
}

// Whether one of n processes has another least inbound bound in the one table than in the other.
fn wrong_record<'a>(processes: &'a [u64], made: &'a [u64], n: usize) -> bool
    requires { (n ≤ 64) × (length processes.now ≡ 256) × (length made.now ≡ 256) }
    ensures { result ≡ any (differs_at processes.now made.now) (up_to n) }
{
    for p in 0..n {
        if wrong_tick(processes, made, p) {
            return true;
        }
    }
    false
}

// The same of process p alone.
fn wrong_tick<'a>(processes: &'a [u64], made: &'a [u64], p: usize) -> bool
    requires { (p < 64) × (length processes.now ≡ 256) × (length made.now ≡ 256) }
    ensures { result ≡ differs_at processes.now made.now p }
{
    let recorded = words::tick_in(processes, 2 * (64 + p));
    let least = words::tick_in(made, 2 * (64 + p));
    !recorded.eq(least)
}

fn invalid_pending(pending: &[u64], count: usize, n: u64, next: u64) -> bool
    requires { 8 * count ≤ length pending.now }
    ensures { result ≡ any_of (pending_tests n next (events_of count pending.now)) }
{
    if foreign_events::invalid_events(pending, count, n) {
        return true;
    }
    if !records::strictly_rising(pending, count) {
        return true;
    }
    foreign_events::sequence_not_below_next(pending, count, next)
}

fn invalid_batch(batch: &[u64], count: usize, n: u64) -> bool
    requires { 8 * count ≤ length batch.now }
    ensures { result ≡ any_of (batch_tests n (events_of count batch.now)) }
{
    if foreign_events::invalid_events(batch, count, n) {
        return true;
    }
    !foreign_events::rising_by_process(batch, count)
}

// 11, of every header and all arrays of the right lengths. The local horizons are not read: a state
// has one for each process by its layout. The header comes first: the walks ask that as many words as
// it says are there. The arrays stay apart, as the calls on lent arrays have them.
pub fn is_foreign<'a>(
    head: Header,
    edges: &'a [u64],
    pending: &'a [u64],
    processes: &'a [u64],
    batch: &'a [u64],
) -> bool
    requires { (length edges.now ≡ 3072) × (length pending.now ≡ 4096) × (length processes.now ≡ 256) × (length batch.now ≡ 512) }
    ensures { IsForeign head edges.now pending.now processes.now batch.now result }
{
    if invalid_header(head) {
        return true;
    }
    let n = head.n as u64;
    if invalid_edges(edges, head.edges, n, processes) {
        return true;
    }
    if invalid_pending(pending, head.pending, n, head.next) {
        return true;
    }
    invalid_batch(batch, head.batch, n)
}

// The same of a runtime by value, for calls that pass the refusal on.
#[tactic(auto, using(crate::proofs::Grouped::foreign_is))]
pub fn check(state: &Runtime) -> Result<(), Refusal>
    ensures { ChecksForeign (view_of state.now) result }
{
    if is_foreign(
        state.head,
        &state.edges,
        &state.pending,
        &state.processes,
        &state.batch,
    ) {
        return Err(Refusal::ForeignState);
    }
    Ok(())
}
