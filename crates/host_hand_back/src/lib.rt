// Hand back of a reply that comes as emission records: what stands before, between and behind the two
// passes over them, and the step of each pass. The two loops stand in `host_reply`.

#![tactic(auto)]

ghost use Rattle.std.specs.Prelude.{◌≡◌, ◌*◌, ◌≤◌, length, take, IfOk};
ghost use Rattle.words.specs.Words.{zeroes};
ghost use Rattle.hand_back_enqueue.specs.Enqueued.{Enqueueable};
ghost use Rattle.hand_back_commit.specs.Commits.{CanEnd};
ghost use Rattle.hand_back.specs.ReplyChecks.{Ready};
ghost use Rattle.host_hand_back.specs.Passes.{tables_of, Checkable, ChecksNext, EnqueuesNext};
ghost use Rattle.host_hand_back.specs.Parts.{Tabled, OpensFrom, Opens, AdmissionOf, given_back, CommitsTo, PoisonsTo, Closable, Closes};

use hand_back_check::ReplyCheck;
use hand_back_enqueue::Tail;
use reply_words::Emission;
use runtime::CallResult;
use state::{Counters, Header, Refusal, Runtime};

// What the first pass reads, and where it starts: the lookaheads of all pairs of processes from word 0
// on, the place of each process's event from 8,192, the table of the processes from 8,256 and the events
// in hand from 8,512. Nothing is read where the reply is refused before.
#[derive(Clone, Copy)]
pub struct Opened {
    pub words: [u64; 9024],
    pub check: Result<ReplyCheck, Refusal>,
}

fn fill<'a>(words: &mut [u64], places: &'a [u64], processes: &'a [u64], batch: &'a [u64])
    requires { (length words.old ≡ 9024) × (length places.now ≡ 64) × (length processes.now ≡ 256) × (length batch.now ≡ 512) }
    ensures { words.new ≡ tables_of (take 8192 words.old) places.now processes.now batch.now }
{
    words[8192..8256].copy_from_slice(places);
    words[8256..8512].copy_from_slice(processes);
    words[8512..9024].copy_from_slice(batch);
}

// 12, 25 and 26 of the mask; and the words that the first pass reads, where none of them refuses.
fn make_tables<'a>(
    head: Header,
    edges: &'a [u64],
    processes: &'a [u64],
    batch: &'a [u64],
    mask: u64,
    words: &mut [u64],
) -> Result<ReplyCheck, Refusal>
    requires { Ready head edges.now batch.now × (length processes.now ≡ 256) × (length batch.now ≡ 512) × (words.old ≡ zeroes 9024) }
    ensures { Tabled head edges.now processes.now batch.now mask result words.new }
{
    let mut places = [0u64; 64];
    let start = hand_back::begin_check(head, batch, mask, &mut places)?;
    hand_back_edges::find_lookaheads(edges, head.edges, words);
    fill(words, &places, processes, batch);
    Ok(start)
}

// 11, 12, 25 and 26 of the mask. Where one of them refuses, no emission is looked at.
fn begin(state: &Runtime, mask: u64, words: &mut [u64]) -> Result<ReplyCheck, Refusal>
    requires { words.old ≡ zeroes 9024 }
    ensures { OpensFrom state.now mask result words.new }
{
    foreign::check(state)?;
    make_tables(
        state.head,
        &state.edges,
        &state.processes,
        &state.batch,
        mask,
        words,
    )
}

pub fn open(state: Runtime, mask: u64) -> Opened
    ensures { Opens state mask result }
{
    let mut words = [0u64; 9024];
    let check = begin(&state, mask, &mut words);
    Opened { words, check }
}

// One emission of the first pass. A check that has stopped is given back as it is.
pub fn check_next(
    words: &[u64; 9024],
    head: Header,
    a: Result<ReplyCheck, Refusal>,
    e: Emission,
) -> Result<ReplyCheck, Refusal>
    requires { IfOk a (λ _. Checkable words.now head) }
    ensures { ChecksNext words.now head a e result }
{
    let lookaheads = &words[0..8192];
    let places = &words[8192..8256];
    let processes = &words[8256..8512];
    let batch = &words[8512..9024];
    let lookahead = hand_back_edges::lookahead_in(lookaheads, e);
    hand_back_check::check(head, lookahead, places, processes, batch, a, e)
}

// What all checks say of a reply of so many emissions: 27 to 33, 19 and 18; and where the first of them
// goes, if the round is queued.
pub fn admit(
    head: Header,
    check: Result<ReplyCheck, Refusal>,
    emitted: usize,
) -> Result<Tail, Refusal>
    ensures { AdmissionOf check head emitted result }
{
    hand_back_commit::final_check(check?, head.next, head.pending, emitted)?;
    Ok(Tail {
        count: head.pending,
        next: head.next,
    })
}

// One emission of the second pass; nothing is queued of a round that is not admitted.
pub fn enqueue_next(
    words: &mut [u64; 4096],
    tail: Result<Tail, Refusal>,
    e: Emission,
) -> Result<Tail, Refusal>
    requires { IfOk tail (λ t. Enqueueable t 1 words.old) }
    ensures { EnqueuesNext words.old tail e words.new result }
{
    let tail = tail?;
    Ok(hand_back_enqueue::enqueue(words, tail, e))
}

// The refusals that leave the state as given.
fn as_given(state: Runtime, counters: Counters, refusal: Refusal) -> CallResult
    ensures { result ≡ given_back state counters refusal }
{
    CallResult {
        answer: Err(refusal),
        state,
        counters,
    }
}

// The round, whose emissions are queued, is ended.
fn commit(mut state: Runtime, counters: Counters, check: ReplyCheck, emitted: usize) -> CallResult
    requires { CanEnd state.head state.pending state.processes state.batch emitted }
    ensures { CommitsTo state counters check emitted result }
{
    let ended = hand_back_commit::commit_round(
        state.head,
        counters,
        &state.pending,
        &mut state.processes,
        &mut state.batch,
        check.remote,
        emitted,
    );
    state.head = ended.head;
    CallResult {
        answer: ended.answer,
        state,
        counters: ended.counters,
    }
}

// The round is lost.
fn poison(mut state: Runtime, counters: Counters, refusal: Refusal) -> CallResult
    requires { 8 * state.head.batch ≤ length state.batch }
    ensures { PoisonsTo state counters refusal result }
{
    let lost = hand_back_end::poison(Err(refusal), state.head, counters, &mut state.batch);
    state.head = lost.head;
    CallResult {
        answer: lost.answer,
        state,
        counters: lost.counters,
    }
}

// What becomes of a reply whose emissions were passed twice; where the round is admitted, they stand in
// the pending words of the state.
pub fn close(
    state: Runtime,
    counters: Counters,
    check: Result<ReplyCheck, Refusal>,
    queued: Result<Tail, Refusal>,
    emitted: usize,
) -> CallResult
    requires { Closable state check queued emitted }
    ensures { Closes state counters check queued emitted result }
{
    match (check, queued) {
        (Err(refusal), _) => as_given(state, counters, refusal),
        (Ok(a), Ok(_)) => commit(state, counters, a, emitted),
        (Ok(_), Err(refusal)) => poison(state, counters, refusal),
    }
}
