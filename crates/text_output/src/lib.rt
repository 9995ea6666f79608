// Text for standard output, gathered in a buffer. What each function puts there is proved, what is
// written to a file cannot be said by a contract.

#![tactic(auto)]

ghost use Rattle.std.specs.Prelude.{◌≡◌, ◌++◌, ◌∷◌, [], ◌+◌, ◌≤◌, length, take};
ghost use Rattle.io.specs.Counts.{IsPrefixLen};
ghost use Rattle.io.specs.Digits.{last_digits, IsDigitCount};
ghost use Rattle.types.specs.Value.{ticks_of};
ghost use Rattle.text_output.specs.Gathered.{Puts, PutsNumber, PutsNext};

use types::SimTime;

// The descriptor of standard output.
const STDOUT_FILENO: i32 = 1;

// The bytes of a buffer.
pub const ROOM: usize = 4096;

// What is gathered: the first `len` bytes of the buffer. Kept without an invariant: `put` promises what
// it did of any length, one above ROOM too.
#[derive(Drop)]
pub struct Gathered {
    pub bytes: [u8; ROOM],
    pub len: usize,
}

// The hexadecimal digits of a tick, in lower case and without leading zeros, at the start of out;
// how many there are. Kept by hand and with a count beside the buffer: io::hex, which proves its digits,
// has this form and takes 64 bits.
pub fn tick_digits(t: SimTime, out: &mut [u8; 32]) -> usize
    ensures prefix_len { IsPrefixLen result out.new }
    ensures digit_count { IsDigitCount 16 1 (ticks_of t) result }
    ensures out_after { take result out.new ≡ last_digits 16 result (ticks_of t) }
{
    let mut high = [0u8; 16];
    if t.hi == 0 {
        let k = io::hex(t.lo, 1, &mut high);
        return byte_copy::copy(&high[..k], out);
    }
    let k = io::hex(t.hi, 1, &mut high);
    let mut low = [0u8; 16];
    io::hex(t.lo, 16, &mut low);
    join(&high[..k], &low, out)
}

// Both texts, one behind the other, at the start of out; how long they are.
fn join(first: &[u8], second: &[u8; 16], out: &mut [u8]) -> usize
    requires { length first.now + 16 ≤ length out.old }
    ensures value { result ≡ length first.now + 16 }
    ensures out_after { take result out.new ≡ first.now ++ take 16 second.now }
{
    let at = byte_copy::copy(first, out);
    at + byte_copy::copy(second, &mut out[at..])
}

impl Gathered {
    pub fn new() -> Gathered
        ensures { result.len ≡ 0 }
    {
        Gathered {
            bytes: io::buffer(),
            len: 0,
        }
    }

    // The text goes behind what is there. Where it does not fit, what is there is written first.
    pub fn put(&mut self, text: &[u8])
        ensures { Puts self.old.bytes self.old.len text.now self.new.bytes self.new.len }
    {
        if ROOM < self.len {
            return self.put_at_start(text);
        }
        if ROOM - self.len < text.len() {
            self.write();
            return self.put_at_start(text);
        }
        self.len += byte_copy::copy(text, &mut self.bytes[self.len..]);
    }

    // The text goes to the front. Where it has no room there either, it is written at once.
    fn put_at_start(&mut self, text: &[u8])
        ensures same { length self.new.bytes ≡ length self.old.bytes }
        ensures within { self.new.len ≤ length self.new.bytes }
    {
        self.len = if text.len() <= ROOM {
            byte_copy::copy(text, &mut self.bytes)
        } else {
            io::write_all(STDOUT_FILENO, text);
            0
        };
    }

    pub fn put_byte(&mut self, b: u8)
        ensures { Puts self.old.bytes self.old.len (b ∷ []) self.new.bytes self.new.len }
    {
        self.put(&[b]);
    }

    pub fn put_decimal(&mut self, n: u64)
        ensures { PutsNumber 10 n self.old.bytes self.old.len self.new.bytes self.new.len }
    {
        let mut text = [0u8; 20];
        let k = io::decimal(n, &mut text);
        self.put(&text[..k]);
    }

    pub fn put_tick(&mut self, t: SimTime)
        ensures { PutsNumber 16 (ticks_of t) self.old.bytes self.old.len self.new.bytes self.new.len }
    {
        let mut text = [0u8; 32];
        let k = tick_digits(t, &mut text);
        self.put(&text[..k]);
    }

    // The next number of a list, behind what separates it.
    pub fn put_next(&mut self, separator: u8, n: u64)
        ensures { PutsNext separator 10 n self.old.bytes self.old.len self.new.bytes self.new.len }
    {
        self.put_byte(separator);
        self.put_decimal(n);
    }

    pub fn put_next_tick(&mut self, separator: u8, t: SimTime)
        ensures { PutsNext separator 16 (ticks_of t) self.old.bytes self.old.len self.new.bytes self.new.len }
    {
        self.put_byte(separator);
        self.put_tick(t);
    }

    // Writes what is there.
    fn write(&self) -> bool {
        if self.len <= ROOM {
            return io::write_all(STDOUT_FILENO, &self.bytes[..self.len]);
        }
        false
    }

    // Ends the line and writes what is there. Nothing is left.
    pub fn end_line(&mut self) -> bool
        ensures { self.new.len ≡ 0 }
    {
        self.put_byte(b'\n');
        let written = self.write();
        self.len = 0;
        written
    }
}
