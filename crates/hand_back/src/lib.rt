// The core of hand back: what every reply is checked by, the check of a reply in words, and what
// becomes of its round.

#![tactic(auto)]

ghost use Rattle.std.specs.Prelude.{◌≡◌, ◌*◌, ◌/◌, ◌≤◌, length};
ghost use Rattle.words.specs.Words.{zeroes};
ghost use Rattle.records.specs.Records.{Owners};
ghost use Rattle.reply_words.specs.Emissions.{emissions_of};
ghost use Rattle.state.specs.ValidArrays.{ValidArrays};
ghost use Rattle.hand_back_commit.specs.HandsBack.{HandsBack};
ghost use Rattle.hand_back.specs.ReplyChecks.{replied_of, EarlyRows, Ready, Begins, CanReview, ChecksReply, as_given_to, CanCommit, Commits};

use hand_back_check::{Lent, ReplyCheck};
use hand_back_enqueue::Tail;
use state::{CoreResult, Counters, Header, Refusal};

// Rows 12 and 25.
fn refusal(head: Header) -> Result<(), Refusal>
    ensures { EarlyRows head result }
{
    if head.poisoned {
        return Err(Refusal::Poisoned);
    }
    if head.batch == 0 {
        return Err(Refusal::NoBatch);
    }
    Ok(())
}

// Rows 12 and 25, and 26 of the mask; where none refuses, the place of each process's event is found.
pub fn begin_check(
    head: Header,
    batch: &[u64],
    mask: u64,
    places: &mut [u64],
) -> Result<ReplyCheck, Refusal>
    requires { (head.batch ≤ 64) × (8 * head.batch ≤ length batch.now) × Owners head.batch batch.now × (places.old ≡ zeroes 64) }
    ensures { Begins head batch.now mask result places.new }
{
    refusal(head)?;
    reply_words::find_places(batch, head.batch, places);
    if reply_words::failed_not_in_batch(mask, places) {
        return Err(Refusal::MalformedReply);
    }
    let failed = hand_back_check::first_failed(batch, head.batch, mask);
    Ok(hand_back_check::start(mask, failed))
}

// The emissions of a reply in words, by a table of so many words, 64 for each event in hand. It is made
// for each reply, and a small one is cleared sooner.
fn review_with<'a, const WORDS: usize>(
    lent: Lent<'a>,
    places: &'a [u64],
    start: ReplyCheck,
    reply: &'a [u64],
    count: usize,
) -> Result<ReplyCheck, Refusal>
    requires { (WORDS ≤ 4096) × CanReview lent.head lent.edges.now lent.processes.now lent.batch.now start places.now (WORDS / 64) × (8 * count ≤ length reply.now) }
    ensures { ChecksReply lent.entry.head lent.entry.edges.now lent.entry.processes.now lent.entry.batch.now start.mask (emissions_of count reply.now) result }
{
    let mut table = [0u16; WORDS];
    hand_back_edges::find_edges(lent.edges, lent.head.edges, places, &mut table);
    hand_back_check::check_words(lent, &table, places, Ok(start), reply, count)
}

// The emissions of a reply in words, by the smallest table that has a row for each event in hand: of 2,
// 16 or 64 rows.
fn review<'a>(
    lent: Lent<'a>,
    places: &'a [u64],
    start: ReplyCheck,
    reply: &'a [u64],
    count: usize,
) -> Result<ReplyCheck, Refusal>
    requires { CanReview lent.head lent.edges.now lent.processes.now lent.batch.now start places.now 64 × (8 * count ≤ length reply.now) }
    ensures { ChecksReply lent.entry.head lent.entry.edges.now lent.entry.processes.now lent.entry.batch.now start.mask (emissions_of count reply.now) result }
{
    if lent.head.batch <= 2 {
        return review_with::<128>(lent, places, start, reply, count);
    }
    if lent.head.batch <= 16 {
        return review_with::<1024>(lent, places, start, reply, count);
    }
    review_with::<4096>(lent, places, start, reply, count)
}

// The check of a reply in words. Edges are read for emissions alone: a reply without any does not walk
// them.
fn check_reply<'a>(lent: Lent<'a>, mask: u64, reply: &'a [u64]) -> Result<ReplyCheck, Refusal>
    requires { Ready lent.head lent.edges.now lent.batch.now × (length lent.processes.now ≡ 256) × (length lent.batch.now ≡ 512) }
    ensures { ChecksReply lent.entry.head lent.entry.edges.now lent.entry.processes.now lent.entry.batch.now mask (replied_of reply.now) result }
{
    let mut places = [0u64; 64];
    let start = begin_check(lent.head, lent.batch, mask, &mut places)?;
    let count = reply.len() / 8;
    if count == 0 {
        return Ok(start);
    }
    review(lent, &places, start, reply, count)
}

// The refusals that leave the state as given.
fn as_given(head: Header, counters: Counters, refusal: Refusal) -> CoreResult
    ensures { result ≡ as_given_to head counters refusal }
{
    CoreResult {
        answer: Err(refusal),
        head: head,
        counters: counters,
    }
}

// A reply that is not malformed: its round is queued and ended, or lost.
fn commit(
    head: Header,
    counters: Counters,
    pending: &mut [u64],
    processes: &mut [u64],
    batch: &mut [u64],
    check: ReplyCheck,
    reply: &[u64],
) -> CoreResult
    requires { CanCommit head pending.old processes.old batch.old }
    ensures { Commits head counters pending.old processes.old batch.old check (replied_of reply.now) result pending.new processes.new batch.new }
{
    let emitted = reply.len() / 8;
    let verdict = hand_back_commit::final_check(check, head.next, head.pending, emitted);
    if let Err(refusal) = verdict {
        return hand_back_end::poison(Err(refusal), head, counters, batch);
    }
    let tail = Tail {
        count: head.pending,
        next: head.next,
    };
    hand_back_enqueue::enqueue_words(pending, tail, reply, emitted);
    hand_back_commit::commit_round(
        head,
        counters,
        pending,
        processes,
        batch,
        check.remote,
        emitted,
    )
}

// The reply has eight words to an emission; words that make no whole one are passed over.
// Kept with each array by itself, here and in what ends a round: three of them change, and the clauses
// name the words of each before and after. A struct of them would be taken apart again in every call.
pub fn hand_back<'a>(
    head: Header,
    counters: Counters,
    edges: &'a [u64],
    pending: &mut [u64],
    processes: &mut [u64],
    batch: &mut [u64],
    mask: u64,
    reply: &'a [u64],
) -> CoreResult
    requires { ValidArrays head edges.now pending.old processes.old batch.old }
    ensures { HandsBack head counters edges.now pending.old processes.old batch.old mask (emissions_of (length reply.now / 8) reply.now) result pending.new processes.new batch.new }
{
    let lent = Lent {
        head,
        edges,
        processes,
        batch,
    };
    match check_reply(lent, mask, reply) {
        Ok(check) => commit(head, counters, pending, processes, batch, check, reply),
        Err(refusal) => as_given(head, counters, refusal),
    }
}
