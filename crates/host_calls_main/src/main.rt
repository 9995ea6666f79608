// The lists of calls from standard input through the calls of `host` (docs/CALLS.md): what
// `calls_main` does through those of `runtime`.

#![tactic(auto)]

use call_host::ByHost;

fn main() {
    call_session::run::<ByHost>();
}
