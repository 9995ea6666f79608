// Events in flat words: what 11 asks of them, each in one pass, by a test that is given to the walk of
// records. Words and a count are kept apart, as there.
//
// These are leaves: each asks that the words it touches are there.

#![tactic(auto)]

ghost use Rattle.std.specs.Prelude.{◌≡◌, ◌*◌, ◌≤◌, length};
ghost use Rattle.rules.specs.Base.{rising};
ghost use Rattle.rules.specs.Foreign.{by_process};
ghost use Rattle.records.specs.Records.{event_of, events_of};
ghost use Rattle.foreign_events.specs.Clauses.{invalid_event, any_invalid_event, any_sequence_not_below};

use records::Record;
use types::MAX_PAYLOAD;

// 11: whether an event has an id that is not below n, or a payload above 16 bytes.
pub fn invalid_events(w: &[u64], count: usize, n: u64) -> bool
    requires { 8 * count ≤ length w.now }
    ensures { result ≡ any_invalid_event n (events_of count w.now) }
{
    records::any_event(w, count, |e| is_invalid(e, n))
}

fn is_invalid(e: Record, n: u64) -> bool
    ensures { result ≡ invalid_event n (event_of e) }
{
    if n <= e.source {
        return true;
    }
    if n <= e.destination {
        return true;
    }
    MAX_PAYLOAD < e.len
}

// 11: whether a sequence number is not below the next one.
pub fn sequence_not_below_next(w: &[u64], count: usize, next: u64) -> bool
    requires { 8 * count ≤ length w.now }
    ensures { result ≡ any_sequence_not_below next (events_of count w.now) }
{
    records::any_event(w, count, |e| next <= e.sequence)
}

// 11: whether the destinations rise strictly.
pub fn rising_by_process(w: &[u64], count: usize) -> bool
    requires { 8 * count ≤ length w.now }
    ensures { result ≡ rising by_process (events_of count w.now) }
{
    records::each_next(w, count, |e, next| e.destination < next.destination)
}
