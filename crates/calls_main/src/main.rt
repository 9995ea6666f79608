// The lists of calls from standard input through the calls of `runtime` (docs/CALLS.md).

#![tactic(auto)]

use call_runtime::ByValue;

fn main() {
    call_session::run::<ByValue>();
}
