// The lines of docs/CALLS.md: what a call answered, and everything that document 01 compares after
// it. A state's counts may be anything: no more is printed than an array holds.

#![tactic(auto)]

ghost use Rattle.std.specs.Prelude.{◌≡◌, ℕ, ◌<◌, ◌≤◌, ◌≢◌, length, slice_index};

use answer_values::Values;
use build::BuildRefusal;
use reads::Reading;
use state::{Answer, Counters, Header, Refusal, Runtime};
use text_output::Gathered;
use types::{LpId, SimTime};

// The words of a tick, an edge and an event.
const TICK: usize = 2;

const EDGE: usize = 6;

const EVENT: usize = 8;

// The words of each half of the processes' table: 64 ticks.
const HALF: usize = 128;

// The digits of a word of payload, two for each byte.
const DIGITS: usize = 16;

// The letters of a name, with the spaces behind it.
const LETTERS: usize = 9;

// The first place from `from` on, below `to`, where the byte is b; `to` where there is none.
fn find(bytes: &[u8], from: usize, to: usize, b: u8) -> usize
    requires { (from ≤ to) × (to ≤ length bytes.now) }
    ensures within { (from ≤ result) × (result ≤ to) }
    ensures before { (k : ℕ) → from ≤ k → k < result → slice_index bytes.now k ≢ b }
    ensures found { result < to → slice_index bytes.now result ≡ b }
{
    for i in from..to {
        if bytes[i] == b {
            return i;
        }
    }
    to
}

// A name without the spaces behind it. Kept as a search: the contract of `find` and its two must-fail
// edits hold it, so the names are of one length.
fn put_name(out: &mut Gathered, name: &[u8; LETTERS]) {
    let end = find(name, 0, LETTERS, b' ');
    out.put(&name[..end]);
}

fn name_of(answer: Result<Answer, Refusal>) -> &'static [u8; LETTERS] {
    match answer {
        Ok(Answer::Accepted) => b"accepted ",
        Ok(Answer::Batch(_)) => b"batch    ",
        Ok(Answer::Advanced(_)) => b"advanced ",
        Ok(Answer::Finished(_)) => b"finished ",
        Ok(Answer::Committed(_)) => b"committed",
        Err(_) => b"refused  ",
    }
}

fn read_name(answer: Result<Reading, Refusal>) -> &'static [u8; LETTERS] {
    match answer {
        Ok(Reading::Gvt(_)) => b"gvt      ",
        Ok(Reading::Counted(_, _)) => b"counters ",
        Ok(Reading::Pending(_)) => b"pending  ",
        Ok(Reading::Earliest(_)) => b"earliest ",
        Err(_) => b"refused  ",
    }
}

fn build_name(answer: Result<(), BuildRefusal>) -> &'static [u8; LETTERS] {
    match answer {
        Ok(()) => b"accepted ",
        Err(_) => b"refused  ",
    }
}

fn put_number(out: &mut Gathered, n: u64) {
    out.put_next(b' ', n);
}

fn put_id(out: &mut Gathered, p: LpId) {
    put_number(out, p.to_word());
}

fn put_tick(out: &mut Gathered, t: SimTime) {
    out.put_next_tick(b' ', t);
}

// The digits of so many bytes of the word, at most all.
fn put_bytes(out: &mut Gathered, word: u64, count: usize) {
    let mut text = [0u8; DIGITS];
    io::hex(word, DIGITS, &mut text);
    out.put(&text[..2 * count.min(8)]);
}

fn put_payload(out: &mut Gathered, len: usize, p0: u64, p1: u64) {
    put_bytes(out, p0, len);
    if 8 < len {
        put_bytes(out, p1, len - 8);
    }
}

// The things of lists, each behind a space.
fn put_tick_words(out: &mut Gathered, w: &[u64; TICK]) {
    put_tick(out, words::tick_in(w, 0));
}

fn put_edge(out: &mut Gathered, w: &[u64; EDGE]) {
    put_number(out, w[0]);
    out.put_next(b':', w[1]);
    out.put_next_tick(b':', words::tick_in(w, 2));
    out.put_next_tick(b':', words::tick_in(w, 4));
}

fn put_event(out: &mut Gathered, w: &[u64; EVENT]) {
    let r = records::record_in(w, 0);
    put_number(out, r.destination);
    out.put_next_tick(b':', r.tick());
    out.put_next(b':', r.source);
    out.put_next(b':', r.sequence);
    out.put_byte(b':');
    put_payload(out, r.len as usize, r.payload_hi, r.payload_lo);
}

fn put_bar(out: &mut Gathered) {
    out.put(b" |");
}

// A field that is a list of so many of the things, at most all, each put by `put`. Where it is empty, it
// leaves its space.
fn put_list<T, F: Fn(&mut Gathered, &T)>(out: &mut Gathered, things: &[T], count: usize, put: F)
    requires { F.IsAlwaysCallable put }
{
    put_bar(out);
    if count == 0 {
        out.put_byte(b' ');
    }
    for thing in things.iter().take(count) {
        put(out, thing);
    }
}

// The seven counters, the last of which is the state's.
fn put_counters(out: &mut Gathered, counters: Counters, used: u64) {
    put_number(out, counters.processed_events);
    put_number(out, counters.emitted_events);
    put_number(out, counters.remote_events);
    put_number(out, counters.rounds);
    put_number(out, counters.null_messages);
    put_number(out, counters.worker_count);
    put_number(out, used);
}

// The values of an answer, each behind a space.
fn put_values(out: &mut Gathered, values: Values) {
    match values {
        Values::Nothing => {}
        Values::Number(n) => put_number(out, n),
        Values::Numbers(m, n) => {
            put_number(out, m);
            put_number(out, n);
        }
        Values::Id(p) => put_id(out, p),
        Values::Ids(p, q) => {
            put_id(out, p);
            put_id(out, q);
        }
        Values::Tick(t) => put_tick(out, t),
        Values::Ticks(t, u) => {
            put_tick(out, t);
            put_tick(out, u);
        }
        Values::IdTicks(p, t, u) => {
            put_id(out, p);
            put_tick(out, t);
            put_tick(out, u);
        }
        Values::IdThreeTicks(p, t, u, v) => {
            put_id(out, p);
            put_tick(out, t);
            put_tick(out, u);
            put_tick(out, v);
        }
        Values::IdTickDuration(p, t, d) => {
            put_id(out, p);
            put_tick(out, t);
            put_tick(out, SimTime::after_zero(d));
        }
        Values::Counted(counters, used) => put_counters(out, counters, used),
    }
}

// What a line begins with: a name, the number of a refusal, and the values.
fn put_first(out: &mut Gathered, name: &[u8; LETTERS], number: u64, values: Values) {
    put_name(out, name);
    if number != 0 {
        put_number(out, number);
    }
    put_values(out, values);
}

fn put_sizes(out: &mut Gathered, head: &Header) {
    put_bar(out);
    put_number(out, head.n as u64);
    put_tick(out, SimTime::after_zero(head.lookahead));
    put_number(out, head.next);
    put_tick(out, head.gvt);
}

fn put_stored(out: &mut Gathered, head: &Header) {
    put_bar(out);
    if head.stored {
        put_tick(out, head.horizon);
        put_number(out, head.budget);
    } else {
        out.put_byte(b' ');
        out.put_byte(b'-');
    }
}

fn digit(flag: bool) -> u8 {
    b'0' + u8::from(flag)
}

// The flags are put at once, so that no write ends between them.
fn put_flags(out: &mut Gathered, head: &Header) {
    let flags = [
        b' ',
        digit(head.initial),
        digit(head.running),
        digit(head.poisoned),
    ];
    put_bar(out);
    out.put(&flags);
}

// The local horizons of the processes, then their least inbound bounds: the halves of their table.
fn put_processes(out: &mut Gathered, processes: &[u64; 256], n: usize) {
    put_list(out, processes[..HALF].as_chunks().0, n, put_tick_words);
    put_list(out, processes[HALF..].as_chunks().0, n, put_tick_words);
}

// All fields behind the answer; the line is written.
fn print_state(out: &mut Gathered, state: &Runtime, counters: Counters) {
    let head = &state.head;
    put_bar(out);
    put_counters(out, counters, head.used);
    put_sizes(out, head);
    put_list(out, state.edges.as_chunks().0, head.edges, put_edge);
    put_list(out, state.pending.as_chunks().0, head.pending, put_event);
    put_processes(out, &state.processes, head.n);
    put_stored(out, head);
    put_list(out, state.batch.as_chunks().0, head.batch, put_event);
    put_flags(out, head);
    out.end_line();
}

// The line of a call on a state, and of an accepted build.
pub fn print_line(answer: Result<Answer, Refusal>, state: &Runtime, counters: Counters) {
    let mut out = Gathered::new();
    put_first(
        &mut out,
        name_of(answer),
        answer_values::number_of(answer),
        answer_values::values_of(answer),
    );
    print_state(&mut out, state, counters);
}

// The line of a state given whole.
pub fn print_given(state: &Runtime, counters: Counters) {
    let mut out = Gathered::new();
    put_name(&mut out, b"given    ");
    print_state(&mut out, state, counters);
}

// The line of a read.
pub fn print_read(answer: Result<Reading, Refusal>, state: &Runtime, counters: Counters) {
    let mut out = Gathered::new();
    put_first(
        &mut out,
        read_name(answer),
        answer_values::read_number(answer),
        answer_values::read_values(answer),
    );
    print_state(&mut out, state, counters);
}

// "A refused build has its answer alone".
pub fn print_refused_build(answer: Result<(), BuildRefusal>) {
    let mut out = Gathered::new();
    put_first(
        &mut out,
        build_name(answer),
        answer_values::build_number(answer),
        answer_values::build_values(answer),
    );
    out.end_line();
}
