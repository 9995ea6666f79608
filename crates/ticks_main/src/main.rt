// Prints sums and comparisons of ticks at the edges of their range, for each pair of edges. The
// file stdout holds what the Rust's u128 gives for the same table (differential/findings/src/bin/ticks.rs).

#![tactic(auto)]

use types::{SimDuration, SimTime};

// The descriptor of standard output.
const STDOUT_FILENO: i32 = 1;

// The edges of the range, and of a half: 2^64 - 1 and 2^64.
fn edges() -> [SimTime; 5] {
    [
        SimTime::ZERO,
        SimTime::from_ticks(0, u64::MAX),
        SimTime::from_ticks(1, 0),
        SimTime::MAX.one_less(),
        SimTime::MAX,
    ]
}

// The duration from tick 0 to t.
fn since_zero(t: SimTime) -> SimDuration {
    SimDuration::from_ticks(t.hi, t.lo)
}

fn print_tick(t: SimTime) {
    io::print_hex(STDOUT_FILENO, t.hi, 16);
    io::print_hex(STDOUT_FILENO, t.lo, 16);
}

fn print_sum(sum: Option<SimTime>) {
    match sum {
        Some(t) => print_tick(t),
        None => {
            io::write_all(STDOUT_FILENO, b"overflow");
        }
    }
}

fn print_flag(flag: bool) {
    let text: &[u8] = if flag { b"yes" } else { b"no" };
    io::write_all(STDOUT_FILENO, text);
}

fn print_pair(a: SimTime, b: SimTime) {
    print_tick(a);
    io::write_all(STDOUT_FILENO, b" ");
    print_tick(b);
    io::write_all(STDOUT_FILENO, b" sum ");
    print_sum(a.checked_add(since_zero(b)));
    io::write_all(STDOUT_FILENO, b" less ");
    print_flag(a.lt(b));
    io::write_all(STDOUT_FILENO, b" equal ");
    print_flag(a.eq(b));
    io::write_all(STDOUT_FILENO, b" lesser ");
    print_tick(a.min(b));
    io::write_all(STDOUT_FILENO, b" greater ");
    print_tick(a.max(b));
    io::write_all(STDOUT_FILENO, b"\n");
}

// One line for the edge a itself, and one for it with each edge.
fn print_edge(a: SimTime) {
    print_tick(a);
    io::write_all(STDOUT_FILENO, b" one less ");
    print_tick(a.one_less());
    io::write_all(STDOUT_FILENO, b" no duration ");
    print_flag(since_zero(a).is_zero());
    io::write_all(STDOUT_FILENO, b"\n");
    for b in edges() {
        print_pair(a, b);
    }
}

fn main() {
    for a in edges() {
        print_edge(a);
    }
}
