// What docs/CALLS.md has, from standard input to lent words: the words of a call, a list of things,
// and a state given whole. What the words of a call mean is `call_words`'.

#![tactic(auto)]

ghost use Rattle.std.specs.Prelude.{◌≡◌, ◌*◌, ◌≤◌, IfSome, length};

use call_words::{ADD_INITIAL, BEGIN, HAND_BACK, MAX_ITEMS};
use state::{Counters, Header, Runtime};
use text_input::STDIN_FILENO;
use types::{SimDuration, SimTime};

// The most words that a call has: tag, mask and number, and 4,096 emissions.
pub const CALL_WORDS: usize = 32771;

// The most words that the lookaheads of a build have: two for each of 4,096 destinations.
pub const LOOKAHEAD_WORDS: usize = 8192;

// The last tag.
pub const PLAN: u64 = 8;

// The words of a state behind its lookahead, its arrays apart.
const STATE_WORDS: usize = 21;

// A state given whole.
#[derive(Clone, Copy)]
pub struct GivenState {
    pub state: Runtime,
    pub counters: Counters,
}

// Reads as many words as are lent, where there are so many.
fn read_all(words: &mut [u64]) -> Option<()> {
    if text_input::read_words(STDIN_FILENO, words) < words.len() {
        return None;
    }
    Some(())
}

// So many things of `width` words to the front of these, where they have room; how many came.
fn read_things(words: &mut [u64], width: usize, count: u64) -> Option<usize>
    ensures { IfSome result (λ n. (n ≡ count) × (n * width ≤ length words.old)) }
{
    let things = count as usize;
    let end = things.checked_mul(width)?;
    read_all(words.get_mut(..end)?)?;
    Some(things)
}

// A number, and so many things of `width` words to the front of these; how many came.
pub fn read_list(words: &mut [u64], width: usize) -> Option<usize>
    ensures { IfSome result (λ n. n ≤ 4096) }
{
    let count = text_input::read_word(STDIN_FILENO)?;
    if MAX_ITEMS < count {
        return None;
    }
    read_things(words, width, count)
}

// A number of words, and these words to the front of w, which holds them; how many came.
pub fn read_array(w: &mut [u64]) -> Option<usize>
    ensures { IfSome result (λ n. n ≤ length w.old) }
{
    let count = text_input::read_word(STDIN_FILENO)?;
    read_things(w, 1, count)
}

// How many words stand behind a tag; of a hand back, those before its emissions.
fn words_behind(tag: u64) -> usize
    ensures { result ≤ 7 }
{
    match tag {
        ADD_INITIAL => 7,
        BEGIN => 3,
        HAND_BACK => 2,
        _ => 0,
    }
}

// The emissions of a hand back, behind its first three words; how many words it has.
fn read_emissions(words: &mut [u64; CALL_WORDS]) -> Option<usize>
    ensures { IfSome result (λ n. n ≤ 32771) }
{
    let emitted = words[2];
    if MAX_ITEMS < emitted {
        return None;
    }
    let end = 3 + 8 * emitted as usize;
    read_all(&mut words[3..end])?;
    Some(end)
}

// The words behind the tag, which stands in the first word; how many words the call has.
fn read_behind(words: &mut [u64; CALL_WORDS], tag: u64) -> Option<usize>
    ensures { IfSome result (λ n. n ≤ 32771) }
{
    let end = 1 + words_behind(tag);
    read_all(&mut words[1..end])?;
    if tag == HAND_BACK {
        return read_emissions(words);
    }
    Some(end)
}

// The words of the next call, where the input has one, go to the front of these; how many it has. Of a
// plan it is the tag alone.
pub fn read_call(words: &mut [u64; CALL_WORDS]) -> Option<usize>
    ensures { IfSome result (λ n. n ≤ 32771) }
{
    let tag = text_input::read_word(STDIN_FILENO)?;
    words[0] = tag;
    if PLAN < tag {
        return None;
    }
    read_behind(words, tag)
}

fn header_of(lookahead: SimDuration, w: &[u64; STATE_WORDS]) -> Header {
    Header {
        n: w[0] as usize,
        lookahead,
        edges: w[12] as usize,
        pending: w[13] as usize,
        batch: w[14] as usize,
        next: w[1],
        gvt: SimTime::from_ticks(w[2], w[3]),
        stored: w[4] != 0,
        horizon: SimTime::from_ticks(w[5], w[6]),
        budget: w[7],
        used: w[8],
        initial: w[9] != 0,
        running: w[10] != 0,
        poisoned: w[11] != 0,
    }
}

fn counters_of(w: &[u64; STATE_WORDS]) -> Counters {
    Counters {
        processed_events: w[15],
        emitted_events: w[16],
        remote_events: w[17],
        rounds: w[18],
        null_messages: w[19],
        worker_count: w[20],
    }
}

// A state given whole, behind its lookahead, where all its words come. Words of its arrays that are not
// given are 0.
pub fn read_state(lookahead: SimDuration) -> Option<GivenState> {
    let mut w = [0u64; STATE_WORDS];
    read_all(&mut w)?;
    let mut edges = [0u64; 3072];
    read_array(&mut edges)?;
    let mut pending = [0u64; 4096];
    read_array(&mut pending)?;
    let mut processes = [0u64; 256];
    read_array(&mut processes)?;
    let mut batch = [0u64; 512];
    read_array(&mut batch)?;
    let head = header_of(lookahead, &w);
    Some(GivenState {
        state: Runtime {
            edges,
            pending,
            processes,
            batch,
            head,
        },
        counters: counters_of(&w),
    })
}
