// A session of docs/CALLS.md: the lists of calls from standard input are carried out through the
// public calls of a face, and the answers printed. What cannot be decoded ends the input.

#![tactic(auto)]

ghost use Rattle.std.specs.Prelude.{◌≤◌, IfSome};

use build_topology::Rows;
use call_faces::Face;
use call_input::{CALL_WORDS, LOOKAHEAD_WORDS, PLAN};
use runtime::BuildResult;
use state::{Answer, Counters, Runtime};
use text_input::STDIN_FILENO;
use types::{LpId, SimDuration};

const PLACES: usize = 4096;

// The words of the rows of a build, two for each.
const ROW_WORDS: usize = 8192;

// The process count that stands for a state given whole, in place of a build.
const STATE: u64 = 18446744073709551614;

// What is left between two calls.
#[derive(Clone, Copy)]
struct Session {
    counters: Counters,
    state: Runtime,
}

// The call that the words are, carried out. Its line is printed.
fn execute<F: Face>(s: Session, words: &[u64]) -> Session {
    if call_words::call_size(words, 0).is_some() {
        let called = call_runtime::execute::<F>(s.state, s.counters, words, 0);
        answer_text::print_line(called.answer, &called.state, called.counters);
        return Session {
            counters: called.counters,
            state: called.state,
        };
    }
    if let [tag] = words {
        let answer = call_faces::read::<F>(s.state, s.counters, *tag);
        answer_text::print_read(answer, &s.state, s.counters);
    }
    s
}

// The next call, read and carried out, where it could be decoded; a plan is on no state.
fn execute_next<F: Face>(s: Session, words: &mut [u64; CALL_WORDS]) -> Option<Session> {
    let end = call_input::read_call(words)?;
    if words[0] == PLAN {
        partition_text::execute_plan()?;
        return Some(s);
    }
    Some(execute::<F>(s, &words[..end]))
}

// A number of calls, and the calls, where all could be decoded. An array that is made behind a `?` is
// zeroed twice.
fn execute_calls<F: Face>(mut s: Session) -> Option<()> {
    let mut words = [0u64; CALL_WORDS];
    let count = text_input::read_word(STDIN_FILENO)?;
    for _ in 0..count {
        s = execute_next::<F>(s, &mut words)?;
    }
    Some(())
}

// Carries out the calls. Those of a refused build are passed over.
fn execute_on<F: Face>(built: BuildResult) -> Option<()> {
    if built.answer.is_err() {
        answer_text::print_refused_build(built.answer);
        return skip_calls::skip_calls();
    }
    answer_text::print_line(Ok(Answer::Accepted), &built.state, built.counters);
    execute_calls::<F>(Session {
        counters: built.counters,
        state: built.state,
    })
}

// A number, and so many ids to the front of these; how many came.
fn read_ids(ids: &mut [u32; PLACES]) -> Option<usize>
    ensures { IfSome result (λ n. n ≤ 4096) }
{
    let mut words = [0u64; PLACES];
    let count = call_input::read_list(&mut words, 1)?;
    for i in 0..PLACES {
        ids[i] = LpId::from_word(words[i]).0;
    }
    Some(count)
}

// A number, and so many rows: their sources and their counts go to the fronts of these; how many came.
fn read_rows(sources: &mut [u32; PLACES], counts: &mut [u64; PLACES]) -> Option<usize>
    ensures { IfSome result (λ n. n ≤ 4096) }
{
    let mut words = [0u64; ROW_WORDS];
    let count = call_input::read_list(&mut words, 2)?;
    for i in 0..PLACES {
        sources[i] = LpId::from_word(words[2 * i]).0;
        counts[i] = words[2 * i + 1];
    }
    Some(count)
}

// A list that begins with a build: its ids, rows, destinations and lookaheads. The arrays are all made
// before the first `?`, as in execute_calls.
fn execute_build<F: Face>(n: u64, lookahead: SimDuration) -> Option<()> {
    let mut ids = [0u32; PLACES];
    let mut sources = [0u32; PLACES];
    let mut counts = [0u64; PLACES];
    let mut destinations = [0u32; PLACES];
    let mut lookaheads = [0u64; LOOKAHEAD_WORDS];
    let id_count = read_ids(&mut ids)?;
    let row_count = read_rows(&mut sources, &mut counts)?;
    let edge_count = read_ids(&mut destinations)?;
    let word_count = call_input::read_array(&mut lookaheads)?;
    let rows = Rows {
        sources: &sources[..row_count],
        counts: &counts[..row_count],
        destinations: &destinations[..edge_count],
        lookaheads: &lookaheads[..word_count],
    };
    // The counters of an accepted build are its own.
    let none = Counters::default();
    execute_on::<F>(F::build(n, lookahead, &ids[..id_count], rows, none))
}

// A list on a state given whole.
fn execute_given<F: Face>(lookahead: SimDuration) -> Option<()> {
    let given = call_input::read_state(lookahead)?;
    answer_text::print_given(&given.state, given.counters);
    execute_calls::<F>(Session {
        counters: given.counters,
        state: given.state,
    })
}

// A list of calls, where all of it could be decoded.
fn execute_list<F: Face>() -> Option<()> {
    let mut head = [0u64; 3];
    if text_input::read_words(STDIN_FILENO, &mut head) < 3 {
        return None;
    }
    let [n, hi, lo] = head;
    let lookahead = SimDuration::from_ticks(hi, lo);
    if n == STATE {
        return execute_given::<F>(lookahead);
    }
    execute_build::<F>(n, lookahead)
}

// All lists, by the calls of that face. Nothing says that an input ends, so the lists are counted up to
// a number that none has.
pub fn run<F: Face>() {
    for _ in 0..u64::MAX {
        if execute_list::<F>().is_none() {
            return;
        }
    }
}
