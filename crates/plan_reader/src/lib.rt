// Records of a checked plan file, read where they stand: a message, the emissions of a reply as words
// that hand back takes, the header. A place is counted in bits from the file's start.
//
// These are leaves: each asks that what it reads is there, which crate plan_file's check gives. Kept
// apart, as there: the file and a place in it.

#![tactic(auto)]

ghost use Rattle.std.specs.Prelude.{◌≡◌, ◌+◌, ◌-◌, ◌*◌, ◌^◌, ◌≤◌, min, length, take, drop};
ghost use Rattle.types.specs.Value.{ticks_of, duration_of, lp_id_of};
ghost use Rattle.bits.specs.Bits.{value_of};
ghost use Rattle.bits.specs.Bytes.{stream};
ghost use Rattle.plan_file.specs.Grammar.{message};
ghost use Rattle.plan_file.specs.Standing.{IsGot};
ghost use Rattle.plan_reader.specs.Read.{PayloadRead, MessageRead, HeaderRead};
ghost use Rattle.plan_reader.specs.Written.{Puts, EmissionWritten, CanWrite, EmissionsWritten};

use reply_words::Emission;
use state::Message;
use types::{LpId, SimDuration, SimTime};

// A message and the place behind it.
#[derive(Clone, Copy)]
pub struct MessageAt {
    pub message: Message,
    pub next: usize,
}

// A payload in two words, first byte highest.
#[derive(Clone, Copy)]
pub struct Payload {
    pub hi: u64,
    pub lo: u64,
}

#[derive(Clone, Copy)]
pub struct PlanHeader {
    pub n: u64,
    pub lookahead: SimDuration,
    pub horizon: SimTime,
    pub budget: u64,
}

// The id in the six bits at `at`.
pub fn id_at(s: &[u8], at: usize) -> LpId
    requires { (length s.now ≤ 16384) × (at + 6 ≤ length s.now * 8) }
    ensures { lp_id_of result ≡ value_of (take 6 (drop at (stream s.now))) }
{
    LpId::from_word(bits::read(s, at, 6))
}

// The tick in the 128 bits at `at`.
pub fn tick_at(s: &[u8], at: usize) -> SimTime
    requires { (length s.now ≤ 16384) × (at + 128 ≤ length s.now * 8) }
    ensures { ticks_of result ≡ value_of (take 128 (drop at (stream s.now))) }
{
    SimTime::from_ticks(bits::read(s, at, 64), bits::read(s, at + 64, 64))
}

// The duration in the 128 bits at `at`.
pub fn duration_at(s: &[u8], at: usize) -> SimDuration
    requires { (length s.now ≤ 16384) × (at + 128 ≤ length s.now * 8) }
    ensures { duration_of result ≡ value_of (take 128 (drop at (stream s.now))) }
{
    let tick = tick_at(s, at);
    SimDuration::from_ticks(tick.hi, tick.lo)
}

// Up to eight bytes in a word, the first highest, zeros behind them.
pub fn payload_word(s: &[u8], at: usize, bytes: usize) -> u64
    requires { (length s.now ≤ 16384) × (bytes ≤ 8) × (at + bytes * 8 ≤ length s.now * 8) }
    ensures { result ≡ value_of (take (bytes * 8) (drop at (stream s.now))) * 2 ^ (64 - bytes * 8) }
{
    if bytes == 0 {
        return 0;
    }
    bits::read(s, at, bytes * 8) << (64 - bytes * 8)
}

// The first 16 bytes of a payload of so many.
pub fn payload_at(s: &[u8], at: usize, len: usize) -> Payload
    requires { (length s.now ≤ 16384) × (at + len * 8 ≤ length s.now * 8) }
    ensures { PayloadRead (stream s.now) at len result }
{
    let first = len.min(8);
    let second = (len - first).min(8);
    Payload {
        hi: payload_word(s, at, first),
        lo: payload_word(s, at + first * 8, second),
    }
}

// The message that stands at `at`.
#[tactic(auto, using(crate::proofs::Messages::fields_room))]
pub fn message_at(s: &[u8], at: usize) -> MessageAt
    requires { (length s.now ≤ 16384) × IsGot (message.get (drop at (stream s.now))) }
    ensures { MessageRead (stream s.now) at result }
{
    let len = bits::read(s, at + 140, 5) as usize;
    let payload = payload_at(s, at + 145, len);
    let message = Message {
        source: id_at(s, at),
        destination: id_at(s, at + 6),
        tick: tick_at(s, at + 12),
        len: len as u64,
        payload_hi: payload.hi,
        payload_lo: payload.lo,
    };
    MessageAt {
        message,
        next: at + 145 + len * 8,
    }
}

// The emission goes to the eight words from `at` on.
pub fn put_emission(w: &mut [u64], at: usize, e: Emission)
    requires { at + 8 ≤ length w.old }
    ensures { Puts w.old at e w.new }
{
    w[at] = e.emitter.to_word();
    w[at + 1] = e.source.to_word();
    w[at + 2] = e.destination.to_word();
    w[at + 3] = e.tick.hi;
    w[at + 4] = e.tick.lo;
    w[at + 5] = e.len;
    w[at + 6] = e.payload_hi;
    w[at + 7] = e.payload_lo;
}

// The message that stands at `at` becomes emission `slot`. Returns the place behind the message.
pub fn emission_to(s: &[u8], at: usize, emitter: LpId, out: &mut [u64], slot: usize) -> usize
    requires { (length s.now ≤ 16384) × IsGot (message.get (drop at (stream s.now))) × (8 * slot + 8 ≤ length out.old) }
    ensures { EmissionWritten (stream s.now) at emitter out.old slot out.new result }
{
    let MessageAt { message, next } = message_at(s, at);
    let e = Emission {
        emitter,
        source: message.source,
        destination: message.destination,
        tick: message.tick,
        len: message.len,
        payload_hi: message.payload_hi,
        payload_lo: message.payload_lo,
    };
    put_emission(out, 8 * slot, e);
    next
}

// The counted list of messages that stands at `at` becomes emissions from emission `from` on. Returns
// how many there are then.
pub fn emissions_to(s: &[u8], at: usize, emitter: LpId, out: &mut [u64], from: usize) -> usize
    requires { (length s.now ≤ 16384) × CanWrite (stream s.now) at from (length out.old) }
    ensures { EmissionsWritten (stream s.now) at emitter out.old from out.new result }
{
    let n = bits::read(s, at, 10) as usize;
    let end = from + n;
    let mut p = at + 10;
    for i in from..end {
        p = emission_to(s, p, emitter, out, i);
    }
    end
}

// Process count, lookahead, horizon and budget.
pub fn header(s: &[u8]) -> PlanHeader
    requires { (length s.now ≤ 16384) × (327 ≤ length s.now * 8) }
    ensures { HeaderRead s.now result }
{
    PlanHeader {
        n: bits::read(s, 0, 7),
        lookahead: duration_at(s, 7),
        horizon: tick_at(s, 135),
        budget: bits::read(s, 263, 64),
    }
}
