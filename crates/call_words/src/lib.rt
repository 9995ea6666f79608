// Calls as words (docs/CALLS.md): how many words the call at a place takes, and the message in some.
// specs/Decode.antt says which calls words are.

#![tactic(auto)]

ghost use Rattle.std.specs.Prelude.{◌≡◌, ◌+◌, ◌*◌, ◌/◌, ◌≤◌, ◌<◌, length, get_or, drop, MatchOption};
ghost use Rattle.reply_words.specs.Emissions.{emissions_of};
ghost use Rattle.state.specs.View.{message_of};
ghost use Rattle.call_words.specs.Decode.{message_at, hand_back_in, decode, IsSizeOf, Sizes};

use state::Message;
use types::LpId;

// The tags. Kept as numbers: they are words of a file, which an enum would only be made of by a match
// like that of `call_size`, to be matched once more.
pub const ADD_INITIAL: u64 = 0;

pub const BEGIN: u64 = 1;

pub const STEP: u64 = 2;

pub const HAND_BACK: u64 = 3;

// A hand back of more emissions is nothing that can be decoded.
pub const MAX_ITEMS: u64 = 4096;

// How many words a call takes that should have so many, where it does not break off.
fn complete_size(words: &[u64], at: usize, count: usize) -> Option<usize>
    requires { at ≤ length words.now }
    ensures { MatchOption result (Sizes words.now at count 0) (λ n. (n ≡ count) × Sizes words.now at count n) }
{
    if words.len() - at < count {
        return None;
    }
    Some(count)
}

// The same of a hand back.
fn hand_back_size(words: &[u64], at: usize) -> Option<usize>
    requires { at ≤ length words.now }
    ensures { IsSizeOf result (hand_back_in words.now at (get_or words.now (at + 2) 0)) }
{
    let left = words.len() - at;
    let room = left.checked_sub(3)? / 8;
    let emitted = words[at + 2];
    if MAX_ITEMS < emitted {
        return None;
    }
    if (room as u64) < emitted {
        return None;
    }
    Some(3 + 8 * emitted as usize)
}

// How many words the call at that place takes, where one can be decoded.
pub fn call_size(words: &[u64], at: usize) -> Option<usize>
    ensures { IsSizeOf result (decode words.now at) }
{
    if words.len() <= at {
        return None;
    }
    match words[at] {
        ADD_INITIAL => complete_size(words, at, 8),
        BEGIN => complete_size(words, at, 4),
        STEP => Some(1),
        HAND_BACK => hand_back_size(words, at),
        _ => None,
    }
}

// The message in the seven words from that place on.
pub fn message_in(words: &[u64], at: usize) -> Message
    requires { at + 7 ≤ length words.now }
    ensures { message_of result ≡ message_at words.now at }
{
    Message {
        source: LpId::from_word(words[at]),
        destination: LpId::from_word(words[at + 1]),
        tick: words::tick_in(words, at + 2),
        len: words[at + 4],
        payload_hi: words[at + 5],
        payload_lo: words[at + 6],
    }
}

// The words of the emissions of the hand back at that place.
pub fn reply_in(words: &[u64], at: usize) -> &[u64]
    requires { at + (3 + 8 * get_or words.now (at + 2) 0) ≤ length words.now }
    ensures { emissions_of (length result.now / 8) result.now ≡ emissions_of (get_or words.now (at + 2) 0) (drop (at + 3) words.now) }
{
    let start = at + 3;
    let end = start + 8 * words[at + 2] as usize;
    &words[start..end]
}
