// Fields of up to 64 bits in a byte slice, most significant bit first. A place is counted in bits from
// the slice's start. Kept apart: slice, place and width. Readers ask for another place and width at each
// call, so that a struct of them would be made and taken apart each time.

#![tactic(auto)]

ghost use Rattle.std.specs.Prelude.{◌≡◌, ◌+◌, ◌*◌, ◌/◌, ◌%◌, ◌-◌, ◌^◌, ◌<◌, ◌≤◌, min, length, take, drop};
ghost use Rattle.bits.specs.Bits.{value_of};
ghost use Rattle.bits.specs.Bytes.{stream};

// The t bits of b above its r lowest, behind those of acc. By shifts alone: the bits above them leave
// the word at its upper end.
fn append_bits(acc: u64, b: u64, r: usize, t: usize) -> u64
    requires { (0 < t) × (r + t ≤ 64) × (t < 64) × (acc * 2 ^ t + 2 ^ t ≤ 2 ^ 64) }
    ensures { result ≡ acc * 2 ^ t + b / 2 ^ r % 2 ^ t }
{
    (acc << t) + ((b << (64 - r - t)) >> (64 - t))
}

// A field byte by byte: where the file ends within a word of it.
fn read_bytes(s: &[u8], at: usize, w: usize) -> u64
    requires { (w ≤ 64) × (at + w ≤ 131072) × (at + w ≤ length s.now * 8) }
    ensures { result ≡ value_of (take w (drop at (stream s.now))) }
{
    let end = at + w;
    let mut p = at;
    let mut acc: u64 = 0;
    // Kept by hand: a step passes over the bits that are wanted of a byte, from one to eight of them.
    while p < end {
        let have = 8 - p % 8;
        let t = have.min(end - p);
        let i = p / 8;
        acc = append_bits(acc, u64::from(s[i]), have - t, t);
        p += t;
    }
    acc
}

// Four bytes from byte i on, the first highest.
fn half_at(s: &[u8], i: usize) -> u64
    requires { i + 4 ≤ length s.now }
    ensures { result ≡ value_of (take 32 (drop (i * 8) (stream s.now))) }
{
    u64::from(u32::from_be_bytes([s[i], s[i + 1], s[i + 2], s[i + 3]]))
}

// Eight bytes from byte i on, the first highest.
fn word_at(s: &[u8], i: usize) -> u64
    requires { i + 8 ≤ length s.now }
    ensures { result ≡ value_of (take 64 (drop (i * 8) (stream s.now))) }
{
    let high = half_at(s, i);
    let low = half_at(s, i + 4);
    (high << 32) + low
}

// A field of up to 32 bits: out of the word that begins with its first byte, if the slice has one.
fn read_half(s: &[u8], at: usize, w: usize) -> u64
    requires { (w ≤ 32) × (at + w ≤ 131072) × (at + w ≤ length s.now * 8) }
    ensures { result ≡ value_of (take w (drop at (stream s.now))) }
{
    if w == 0 {
        return 0;
    }
    let i = at / 8;
    if s.len() - i < 8 {
        return read_bytes(s, at, w);
    }
    (word_at(s, i) << (at % 8)) >> (64 - w)
}

// The field of w bits at the place `at`.
pub fn read(s: &[u8], at: usize, w: usize) -> u64
    requires { (w ≤ 64) × (at + w ≤ 131072) × (at + w ≤ length s.now * 8) }
    ensures { result ≡ value_of (take w (drop at (stream s.now))) }
{
    if w <= 32 {
        return read_half(s, at, w);
    }
    let n = w - 32;
    (read_half(s, at, n) << 32) + read_half(s, at + n, 32)
}
