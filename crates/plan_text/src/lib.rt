// The lines of a plan's listing, written into lent bytes.
//
// A line is made in an array of its own, from its end to its front, so that no digit has to be counted first; then it is
// copied behind what stands in the bytes. A place past the end of the bytes says that the listing does not fit.
//
// The bytes and the place stay two arguments, and the place a number: the bytes are the slice that a caller in C lends, a
// run goes on where its listing does not fit (39 is told last), and Appends and Finishes (specs/Appends.antt) say of each
// place what is there.

#![tactic(auto)]

ghost use Rattle.std.specs.Prelude.{◌≡◌, ◌++◌, ◌∷◌, [], ◌+◌, ◌*◌, ◌≤◌, ◌<◌, length};
ghost use Rattle.types.specs.Value.{ticks_of};
ghost use Rattle.words.specs.Words.{cleared};
ghost use Rattle.records.specs.Records.{events_of};
ghost use Rattle.plan_rules.specs.Text.{decimal, nibble, hexadecimal, space};
ghost use Rattle.plan_rules.specs.Listing.{event_line, event_lines, end_line};
ghost use Rattle.plan_text.specs.Appends.{Appends, shown, Finishes};
ghost use Rattle.plan_text.specs.Prepends.{Prepends};

use types::SimTime;

// The bytes of the longest line: `end`, three numbers of 20 digits, a tick of 32, four spaces and a line feed.
const LINE: usize = 100;

// n in decimal, without leading zeros, in front of what stands from `end` on; where it begins.
fn put_decimal(line: &mut [u8], end: usize, n: u64) -> usize
    requires { (20 ≤ end) × (end ≤ length line.old) }
    ensures prepends { Prepends line.old end (decimal n) line.new result }
    ensures end_bound { end ≤ result + 20 }
{
    let mut i = end;
    let mut rest = n;
    // Kept by hand: no library method writes digits from the end, and a text made in front would be copied once more.
    while 10 <= rest {
        i -= 1;
        line[i] = (48 + rest % 10) as u8;
        rest /= 10;
    }
    i -= 1;
    line[i] = (48 + rest) as u8;
    i
}

// A hexadecimal digit in lower case. Kept by hand: `char::from_digit` answers an Option of a character, which would be
// unwrapped and cast.
fn hex_digit(d: u64) -> u8
    requires { d < 16 }
    ensures { result ≡ nibble d }
{
    if d < 10 {
        return (48 + d) as u8;
    }
    (87 + d) as u8
}

// n in sixteen hexadecimal digits, in front of what stands from `end` on.
fn put_half(line: &mut [u8], end: usize, n: u64) -> usize
    requires { (16 ≤ end) × (end ≤ length line.old) }
    ensures { Prepends line.old end (hexadecimal 16 n) line.new result }
{
    let first = end - 16;
    let mut rest = n;
    for i in (first..end).rev() {
        line[i] = hex_digit(rest % 16);
        rest /= 16;
    }
    first
}

// n in decimal and a byte behind it, in front of what stands from `end` on.
fn put_number(line: &mut [u8], end: usize, n: u64, behind: u8) -> usize
    requires { (21 ≤ end) × (end ≤ length line.old) }
    ensures prepends { Prepends line.old end (decimal n ++ (behind ∷ [])) line.new result }
    ensures end_bound { end ≤ result + 21 }
{
    line[end - 1] = behind;
    put_decimal(line, end - 1, n)
}

// A tick in 32 hexadecimal digits and a space behind it, in front of what stands from `end` on.
fn put_tick(line: &mut [u8], end: usize, t: SimTime) -> usize
    requires { (33 ≤ end) × (end ≤ length line.old) }
    ensures prepends { Prepends line.old end (hexadecimal 32 (ticks_of t) ++ (space ∷ [])) line.new result }
    ensures end_value { end ≡ result + 33 }
{
    line[end - 1] = b' ';
    let middle = put_half(line, end - 1, t.lo);
    put_half(line, middle, t.hi)
}

// The text goes behind the first `at` bytes, where it fits.
fn append(out: &mut [u8], at: usize, text: &[u8]) -> usize
    ensures { Appends out.old at text.now out.new result }
{
    if out.len() < at {
        return at;
    }
    if out.len() - at < text.len() {
        return out.len() + 1;
    }
    at + byte_copy::copy(text, &mut out[at..])
}

// The line of an event that was handled.
pub fn put_event(out: &mut [u8], at: usize, process: u64, tick: SimTime, source: u64) -> usize
    ensures { Appends out.old at (event_line (shown process (ticks_of tick) source)) out.new result }
{
    let mut line = [0u8; LINE];
    let third = put_number(&mut line, LINE, source, b'\n');
    let second = put_tick(&mut line, third, tick);
    let first = put_number(&mut line, second, process, b' ');
    append(out, at, &line[first..])
}

// The last line.
pub fn put_end(
    out: &mut [u8],
    at: usize,
    number: u64,
    gvt: SimTime,
    rounds: u64,
    null_messages: u64,
) -> usize
    ensures { Appends out.old at (end_line number (ticks_of gvt) rounds null_messages) out.new result }
{
    let mut line = [0u8; LINE];
    let fifth = put_number(&mut line, LINE, null_messages, b'\n');
    let fourth = put_number(&mut line, fifth, rounds, b' ');
    let third = put_tick(&mut line, fourth, gvt);
    let second = put_number(&mut line, third, number, b' ');
    let first = put_word(&mut line, second);
    append(out, at, &line[first..])
}

// `end` and a space behind it, in front of what stands from `end` on.
fn put_word(line: &mut [u8], end: usize) -> usize
    requires { (4 ≤ end) × (end ≤ length line.old) }
    ensures { Prepends line.old end (101 ∷ 110 ∷ 100 ∷ space ∷ []) line.new result }
{
    let first = end - 4;
    line[first..end].copy_from_slice(b"end ");
    first
}

// The lines of a batch, in its order: the first `count` records of eight words.
pub fn put_batch(out: &mut [u8], at: usize, batch: &[u64], count: usize) -> usize
    requires { 8 * count ≤ length batch.now }
    ensures { Appends out.old at (event_lines (events_of count batch.now)) out.new result }
{
    let mut end = at;
    for i in 0..count {
        let e = records::record_in(batch, 8 * i);
        end = put_event(out, end, e.destination, e.tick(), e.source);
    }
    end
}

// The bytes from `from` on are zero. Kept beside words::clear: both are one call of `fill`, and a function
// over any number type would need a trait for its zero.
pub fn clear(out: &mut [u8], from: usize)
    requires { from ≤ length out.old }
    ensures { out.new ≡ cleared from (length out.old) out.old }
{
    out[from..].fill(0);
}

// Zeros behind the listing, whose end is `at`; nothing but zeros where it does not fit. Whether it does.
pub fn finish(out: &mut [u8], at: usize) -> bool
    ensures { Finishes out.old at out.new result }
{
    if at <= out.len() {
        clear(out, at);
        return true;
    }
    clear(out, 0);
    false
}
