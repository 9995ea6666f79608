// The run of a plan file on lent arrays: what build made, the initial events in turn, begin, and then
// turns of the host until it has no next call. Kept each by itself, as in plan_round: the arrays.

#![tactic(auto)]

ghost use Rattle.std.specs.Prelude.{◌≡◌, ◌<◌, length};
ghost use Rattle.plan_round.specs.Reached.{plan_of};
ghost use Rattle.plan_round.specs.Turns.{Came};
ghost use Rattle.plan_run.specs.Ends.{Ended, GoesOn, EndsWith};
ghost use Rattle.plan_run.specs.RunsBuilt.{Built, InitialAt, Repliable, RunsBuilt};
ghost use Rattle.plan_run.specs.Opens.{Adding, Adds, Opens, Begun};

use plan_reader::MessageAt;
use plan_round::Turn;
use state::{Answer, Counters, Header, Refusal};
use types::SimTime;

// How far the opening of a run has come: what the calls left, the last answer, which is build's where
// there was none, and how many calls there were.
#[derive(Clone, Copy)]
pub struct Opened {
    pub head: Header,
    pub answer: Result<Answer, Refusal>,
    pub calls: usize,
}

// "the initial events in turn": the first stands at the bit `at`. The first refusal ends it.
fn add_initials<'a>(
    mut head: Header,
    edges: &'a [u64],
    pending: &mut [u64],
    processes: &'a [u64],
    file: &'a [u8],
    at: usize,
    count: usize,
) -> Opened
    requires { Adding file.now 0 at head edges.now pending.old processes.now × (count ≡ length (plan_of file.now).initial) }
    ensures { Adds file.now result edges.now pending.new processes.now }
{
    let mut p = at;
    for calls in 0..count {
        let MessageAt { message, next } = plan_reader::message_at(file, p);
        let added = schedule_initial::add_initial(head, edges, pending, message);
        head = added.head;
        p = next;
        if added.answer.is_err() {
            return Opened {
                head,
                answer: added.answer,
                calls: calls + 1,
            };
        }
    }
    Opened {
        head,
        answer: Ok(Answer::Accepted),
        calls: count,
    }
}

// "then the run": begin, where no initial event was refused.
fn begin<'a>(
    added: Opened,
    horizon: SimTime,
    budget: u64,
    file: &'a [u8],
    edges: &'a [u64],
    pending: &'a [u64],
    processes: &'a [u64],
) -> Opened
    requires { Adds file.now added edges.now pending.now processes.now × Begun file.now horizon budget }
    ensures { Opens file.now result edges.now pending.now processes.now }
{
    if added.answer.is_err() {
        return added;
    }
    let begun = begin_run::begin(added.head, horizon, budget);
    Opened {
        head: begun.head,
        answer: begun.answer,
        calls: added.calls + 1,
    }
}

// Whether the host has a next call.
fn goes_on(t: Turn) -> bool
    ensures { GoesOn t result }
{
    t.answer.is_ok() && t.head.running
}

// Turns until the host has no next call.
fn run_turns<'a>(
    start: Turn,
    edges: &mut [u64],
    pending: &mut [u64],
    processes: &mut [u64],
    batch: &mut [u64],
    file: &'a [u8],
    table: &mut [u64],
    reply: &mut [u64],
    listing: &mut [u8],
) -> Turn
    requires { Came file.now start edges.old pending.old processes.old batch.old table.old reply.old listing.old }
    ensures { Ended file.now result edges.new pending.new processes.new batch.new listing.new }
{
    let mut t = start;
    // Kept by hand: it counts nothing, and ends when the host has no next call.
    while goes_on(t) {
        t = plan_round::take_turn(
            t.head, t.counters, edges, pending, processes, batch, file, table, reply, listing,
            t.at, t.calls,
        );
    }
    t
}

// The last line, and zeros behind it; false where the listing does not fit.
pub fn end_listing(
    listing: &mut [u8],
    at: usize,
    number: u64,
    head: Header,
    counters: Counters,
) -> bool
    ensures { EndsWith at number head counters listing.old listing.new result }
{
    let gvt = head.gvt;
    let end = plan_text::put_end(
        listing,
        at,
        number,
        gvt,
        counters.rounds,
        counters.null_messages,
    );
    plan_text::finish(listing, end)
}

// The run of a plan that build accepted: `built`, the edges and the processes are what it made. The
// slice gets the listing and zeros behind it; false, and zeros, where it does not fit.
pub fn run_built<'a>(
    built: Header,
    edges: &mut [u64],
    processes: &mut [u64],
    horizon: SimTime,
    budget: u64,
    file: &'a [u8],
    initial_at: usize,
    initial: usize,
    table: &mut [u64],
    listing: &mut [u8],
) -> bool
    requires { Built (plan_of file.now) built edges.old processes.old × Begun file.now horizon budget × InitialAt file.now initial_at initial × Repliable file.now table.old }
    ensures { RunsBuilt file.now listing.old listing.new result }
{
    let mut pending = [0u64; 4096];
    let mut batch = [0u64; 512];
    let mut reply = [0u64; 7208];
    let added = add_initials(
        built,
        edges,
        &mut pending,
        processes,
        file,
        initial_at,
        initial,
    );
    let opened = begin(added, horizon, budget, file, edges, &pending, processes);
    let start = Turn {
        head: opened.head,
        counters: state::zero_counters(),
        answer: opened.answer,
        at: 0,
        calls: opened.calls,
    };
    let end = run_turns(
        start,
        edges,
        &mut pending,
        processes,
        &mut batch,
        file,
        table,
        &mut reply,
        listing,
    );
    let number = answer_values::number_of(end.answer);
    end_listing(listing, end.at, number, end.head, end.counters)
}
