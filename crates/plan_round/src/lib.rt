// One turn of a plan's host: a step, and, where that hands out a batch, its lines and its reply.
//
// All arrays are lent, so no state is copied, and replies are read from the file where they stand. Kept
// each by itself, as step and hand_back take them: a struct of them would be taken apart at each call.

#![tactic(auto)]

ghost use Rattle.std.specs.Prelude.{◌≤◌, ◌<◌, ◌+◌};
ghost use Rattle.state.specs.Numbers.{number_of};
ghost use Rattle.plan_round.specs.Reached.{Stepping, Holding};
ghost use Rattle.plan_round.specs.Turns.{Turns, PlaceAfter};

use state::{Answer, Counters, Header, Refusal};

// How far the run has come: what the calls left, the last answer, the place behind the lines written so
// far, and how many calls there were.
#[derive(Clone, Copy)]
pub struct Turn {
    pub head: Header,
    pub counters: Counters,
    pub answer: Result<Answer, Refusal>,
    pub at: usize,
    pub calls: usize,
}

// "none for a batch refused by other than 24"
fn place_after(answer: Result<Answer, Refusal>, at: usize, listed: usize) -> usize
    ensures { PlaceAfter (number_of answer) at listed result }
{
    match answer {
        Ok(_) => listed,
        Err(Refusal::EventBudgetExceeded(_)) => listed,
        Err(_) => at,
    }
}

// The batch in hand is listed and its reply handed back.
fn reply_to_batch<'a>(
    head: Header,
    counters: Counters,
    edges: &'a [u64],
    pending: &mut [u64],
    processes: &mut [u64],
    batch: &mut [u64],
    file: &'a [u8],
    table: &mut [u64],
    reply: &mut [u64],
    listing: &mut [u8],
    at: usize,
    calls: usize,
) -> Turn
    requires { Holding file.now calls head counters edges.now pending.old processes.old batch.old table.old reply.old listing.old at }
    ensures { Turns file.now calls result edges.now pending.new processes.new batch.new table.new reply.new listing.new }
{
    let listed = plan_text::put_batch(listing, at, batch, head.batch);
    let emitted = plan_replies::fill_reply(file, batch, head.batch, table, reply);
    let back = hand_back::hand_back(
        head,
        counters,
        edges,
        pending,
        processes,
        batch,
        0,
        &reply[..8 * emitted],
    );
    Turn {
        head: back.head,
        counters: back.counters,
        answer: back.answer,
        at: place_after(back.answer, at, listed),
        calls: calls + 1,
    }
}

// A step, and the reply where it hands out a batch.
pub fn take_turn<'a>(
    head: Header,
    counters: Counters,
    edges: &mut [u64],
    pending: &mut [u64],
    processes: &mut [u64],
    batch: &mut [u64],
    file: &'a [u8],
    table: &mut [u64],
    reply: &mut [u64],
    listing: &mut [u8],
    at: usize,
    calls: usize,
) -> Turn
    requires { Stepping file.now calls head counters edges.old pending.old processes.old batch.old table.old reply.old listing.old at }
    ensures { Turns file.now calls result edges.new pending.new processes.new batch.new table.new reply.new listing.new }
{
    let stepped = step::step(head, counters, edges, pending, processes, batch);
    let h = stepped.head;
    let c = stepped.counters;
    if 0 < h.batch {
        return reply_to_batch(
            h,
            c,
            edges,
            pending,
            processes,
            batch,
            file,
            table,
            reply,
            listing,
            at,
            calls + 1,
        );
    }
    Turn {
        head: h,
        counters: c,
        answer: stepped.answer,
        at: at,
        calls: calls + 1,
    }
}
