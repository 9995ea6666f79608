// A plan file is checked, and the places of its lists are found. A place is counted in bits from the
// file's start.
//
// One pass over the file: of each event only its payload's length is read. Nothing is copied; what
// stands at the places is read by the crate plan_reader.
//
// Kept apart: the file and a place in it, and that the file is short. `check_file` takes any slice and the
// crate `bits` takes slices, so a struct would be made here and taken apart at each call, and a place
// changes from call to call.

#![tactic(auto)]

ghost use Rattle.std.specs.Prelude.{◌≡◌, ◌+◌, ◌*◌, ◌<◌, ◌≤◌, ℕ, suc, Bool, List, length, drop};
ghost use Rattle.bits.specs.Bytes.{stream};
ghost use Rattle.plan_file.specs.Format.{Got, Got.got, gets};
ghost use Rattle.plan_file.specs.Grammar.{edge, message, reply};
ghost use Rattle.plan_file.specs.Checks.{refusal_number, Checks};
ghost use Rattle.plan_file.specs.Walked.{rest, skipped, Walked, CountsBy, Walks};
ghost use Rattle.plan_file.specs.Onward.{onward, rest_none, rest_gets};

// How many edges, initial events and replies there are; and where the first initial event and the first
// reply stand. The edges stand at 337.
#[derive(Clone, Copy)]
pub struct Parts {
    pub edges: usize,
    pub initial: usize,
    pub initial_at: usize,
    pub replies: usize,
    pub replies_at: usize,
}

// Why a file is no plan: 37 and 38.
#[derive(Clone, Copy)]
pub enum FileRefusal {
    Malformed,
    TooLong,
}

// The number that tells of it.
impl From<FileRefusal> for u64 {
    ghost from_gives = { λ refusal number. number ≡ refusal_number refusal };

    fn from(refusal: FileRefusal) -> u64 {
        match refusal {
            FileRefusal::Malformed => 37,
            FileRefusal::TooLong => 38,
        }
    }
}

// A list's count, the place of its first record and the place behind it.
#[derive(Clone, Copy)]
pub struct Listed {
    pub count: usize,
    pub first: usize,
    pub next: usize,
}

// w bits are passed over; None where the file ends too soon.
pub fn skip(s: &[u8], at: usize, w: usize) -> Option<usize>
    requires { (length s.now ≤ 16384) × (at ≤ length s.now * 8) }
    ensures { Walked (stream s.now) (skipped w (drop at (stream s.now))) result }
{
    if s.len() * 8 - at < w {
        return None;
    }
    Some(at + w)
}

// A kind of record that a file lists, by how it is passed over.
pub trait Record {
    // Where one of them ends, and where so many of them do.
    ghost ends: { List Bool → Got (Unit {0}) };

    ghost all_end: { ℕ → List Bool → Got (Unit {0}) };

    fn skip_one(s: &[u8], at: usize) -> Option<usize>
        requires { (length s.now ≤ 16384) × (at ≤ length s.now * 8) }
        ensures { Walked (stream s.now) (ends (drop at (stream s.now))) result };

    fn skip_all(s: &[u8], at: usize, n: usize) -> Option<usize>
        requires { (length s.now ≤ 16384) × (at ≤ length s.now * 8) }
        ensures { Walked (stream s.now) (all_end n (drop at (stream s.now))) result }
    {
        let mut p = at;
        for _ in 0..n {
            p = Self::skip_one(s, p)?;
        }
        Some(p)
    }

    ghost none_end: { (b : List Bool) → all_end 0 b ≡ got tt b };

    ghost more_end: { (n : ℕ) (b : List Bool) → all_end (suc n) b ≡ onward (ends b) (all_end n) };
}

// An edge: 140 bits.
pub struct EdgeList;

impl Record for EdgeList {
    ghost ends = { λ b. rest (edge.get b) };

    ghost all_end = { λ n b. rest (gets edge n b) };

    ghost none_end = { rest_none edge };

    ghost more_end = { rest_gets edge };

    fn skip_one(s: &[u8], at: usize) -> Option<usize> {
        skip(s, at, 140)
    }

    // All at once.
    fn skip_all(s: &[u8], at: usize, n: usize) -> Option<usize> {
        skip(s, at, n.saturating_mul(140))
    }
}

// An event: source, destination and tick have 140 bits, its payload's length five.
pub struct MessageList;

impl Record for MessageList {
    ghost ends = { λ b. rest (message.get b) };

    ghost all_end = { λ n b. rest (gets message n b) };

    ghost none_end = { rest_none message };

    ghost more_end = { rest_gets message };

    fn skip_one(s: &[u8], at: usize) -> Option<usize> {
        skip_message(s, at)
    }
}

// A reply: its process has six bits, the count of its emissions ten.
pub struct ReplyList;

impl Record for ReplyList {
    ghost ends = { λ b. rest (reply.get b) };

    ghost all_end = { λ n b. rest (gets reply n b) };

    ghost none_end = { rest_none reply };

    ghost more_end = { rest_gets reply };

    fn skip_one(s: &[u8], at: usize) -> Option<usize> {
        skip_reply(s, at)
    }
}

// An event is passed over.
pub fn skip_message(s: &[u8], at: usize) -> Option<usize>
    requires { (length s.now ≤ 16384) × (at ≤ length s.now * 8) }
    ensures { Walked (stream s.now) (rest (message.get (drop at (stream s.now)))) result }
{
    if s.len() * 8 - at < 145 {
        return None;
    }
    let bytes = bits::read(s, at + 140, 5) as usize;
    skip(s, at + 145, bytes * 8)
}

// A reply is passed over.
pub fn skip_reply(s: &[u8], at: usize) -> Option<usize>
    requires { (length s.now ≤ 16384) × (at ≤ length s.now * 8) }
    ensures { Walked (stream s.now) (rest (reply.get (drop at (stream s.now)))) result }
{
    if s.len() * 8 - at < 16 {
        return None;
    }
    let n = bits::read(s, at + 6, 10) as usize;
    MessageList::skip_all(s, at + 16, n)
}

// A list of records, with its count in front.
pub fn find_list<R: Record>(s: &[u8], at: usize) -> Option<Listed>
    requires { (length s.now ≤ 16384) × (at ≤ length s.now * 8) }
    ensures { CountsBy R.all_end (stream s.now) at result }
{
    if s.len() * 8 - at < 10 {
        return None;
    }
    let count = bits::read(s, at, 10) as usize;
    let first = at + 10;
    let next = R::skip_all(s, first, count)?;
    Some(Listed { count, first, next })
}

// The whole contents, and the place behind them: process count, lookahead, horizon and budget have 327
// bits.
pub fn find_lists(s: &[u8]) -> Option<(Parts, usize)>
    requires { length s.now ≤ 16384 }
    ensures { Walks (stream s.now) result }
{
    if s.len() * 8 < 327 {
        return None;
    }
    let edges = find_list::<EdgeList>(s, 327)?;
    let initial = find_list::<MessageList>(s, edges.next)?;
    let replies = find_list::<ReplyList>(s, initial.next)?;
    let parts = Parts {
        edges: edges.count,
        initial: initial.count,
        initial_at: initial.first,
        replies: replies.count,
        replies_at: replies.first,
    };
    Some((parts, replies.next))
}

// "38 file above 16,384 bytes, checked first; 37 file too short, bytes left over or a set padding bit".
pub fn check_file(s: &[u8]) -> Result<Parts, FileRefusal>
    ensures { Checks s.now result }
{
    if 16384 < s.len() {
        return Err(FileRefusal::TooLong);
    }
    let Some((parts, end)) = find_lists(s) else {
        return Err(FileRefusal::Malformed);
    };
    let left = s.len() * 8 - end;
    if 8 <= left {
        return Err(FileRefusal::Malformed);
    }
    if bits::read(s, end, left) != 0 {
        return Err(FileRefusal::Malformed);
    }
    Ok(parts)
}
