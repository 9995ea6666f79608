// Carries out the plans in lists of calls (docs/CALLS.md) from standard input, and prints a line for
// each. Plan is on no state, so builds and other calls are read and passed over. What cannot be
// decoded ends the input.

#![tactic(auto)]

use text_input::STDIN_FILENO;

const PLAN: u64 = 8;

fn execute_call(tag: u64) -> Option<()> {
    if tag == PLAN {
        return partition_text::execute_plan();
    }
    skip_calls::skip_call(tag)
}

// A build, a number of calls, and the calls, where all could be decoded.
fn execute_list() -> Option<()> {
    skip_calls::skip_build()?;
    let count = text_input::read_word(STDIN_FILENO)?;
    for _ in 0..count {
        let tag = text_input::read_word(STDIN_FILENO)?;
        execute_call(tag)?;
    }
    Some(())
}

// Nothing says that an input ends, so the lists are counted up to a number that none has.
fn main() {
    for _ in 0..u64::MAX {
        if execute_list().is_none() {
            return;
        }
    }
}
