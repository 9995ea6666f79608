// A reply in flat words, eight to an emission: emitter, source, destination, tick upper, tick lower,
// payload length, payload in two words; and 26, a malformed one.
//
// The batch is checked by a table of 64 places, so that each emission is one lookup. An emitter may be
// any id. These are leaves: each asks that the words it touches are there.

#![tactic(auto)]

ghost use Rattle.std.specs.Prelude.{◌≡◌, ◌+◌, ◌*◌, ◌<◌, ◌≤◌, length};
ghost use Rattle.rules.specs.HandBack.{failed};
ghost use Rattle.words.specs.Words.{zeroes};
ghost use Rattle.records.specs.Records.{events_of, Owners};
ghost use Rattle.reply_words.specs.Emissions.{emission_of, emission_in};
ghost use Rattle.reply_words.specs.Replies.{Places, FailedWithoutEvent, FailedNotInBatch, MalformedEmission};

use types::{LpId, MAX_PAYLOAD, MAX_PROCESSES, SimTime};

// An emission: the process that emits it, and the event.
#[derive(Clone, Copy)]
pub struct Emission {
    pub emitter: LpId,
    pub source: LpId,
    pub destination: LpId,
    pub tick: SimTime,
    pub len: u64,
    pub payload_hi: u64,
    pub payload_lo: u64,
}

// The emission in the eight words from `at` on. Of an id word the lower half counts.
pub fn emission_in(w: &[u64], at: usize) -> Emission
    requires { at + 8 ≤ length w.now }
    ensures { emission_of result ≡ emission_in w.now at }
{
    Emission {
        emitter: LpId::from_word(w[at]),
        source: LpId::from_word(w[at + 1]),
        destination: LpId::from_word(w[at + 2]),
        tick: words::tick_in(w, at + 3),
        len: w[at + 5],
        payload_hi: w[at + 6],
        payload_lo: w[at + 7],
    }
}

// Whether the mask's bit p is set.
pub fn failed(mask: u64, p: u64) -> bool
    requires { p < 64 }
    ensures { result ≡ failed mask p }
{
    (mask >> p) % 2 == 1
}

// The place of each process's event in the batch, counted from 1; for a process that has none the table
// keeps its 0. From the end: the first is what stays.
// Kept as words, with 0 for none: a table of `Option<usize>` is twice as long to clear for each reply, and
// host_hand_back has it as a part of one array of words.
pub fn find_places(batch: &[u64], count: usize, places: &mut [u64])
    requires { (8 * count ≤ length batch.now) × (places.old ≡ zeroes 64) × Owners count batch.now }
    ensures { Places (events_of count batch.now) places.new }
{
    for i in (0..count).rev() {
        let p = batch[8 * i] as usize;
        places[p] = (i + 1) as u64;
    }
}

// "a failed process isn't in the batch". Where no process from p on failed, the pass ends.
// Kept as a clause, here and in three more functions: that `places` has 64 words. No array type can say
// it, since host_hand_back has its tables as parts of one array of words.
pub fn failed_not_in_batch(mask: u64, places: &[u64]) -> bool
    requires { length places.now ≡ 64 }
    ensures { FailedNotInBatch mask places.now result }
{
    for p in 0..MAX_PROCESSES {
        if mask >> p == 0 {
            return false;
        }
        if failed_without_event(mask, p, places) {
            return true;
        }
    }
    false
}

// Whether p failed and isn't in the batch.
fn failed_without_event(mask: u64, p: u64, places: &[u64]) -> bool
    requires { (p < 64) × (length places.now ≡ 64) }
    ensures { FailedWithoutEvent mask places.now p result }
{
    if places[p as usize] != 0 {
        return false;
    }
    failed(mask, p)
}

// The rest of 26 of one emission, `last` being the emitter before it, or 0 for the first.
pub fn malformed_emission(e: Emission, last: u64, mask: u64, places: &[u64]) -> bool
    requires { length places.now ≡ 64 }
    ensures { MalformedEmission mask places.now last (emission_of e) result }
{
    let emitter = e.emitter.to_word();
    if emitter < last {
        return true;
    }
    if MAX_PROCESSES <= emitter {
        return true;
    }
    if places[emitter as usize] == 0 {
        return true;
    }
    if failed(mask, emitter) {
        return true;
    }
    MAX_PAYLOAD < e.len
}
