// Lists of ids as a host gives them, 32 bits wide: build's checks 3, 4 and 6, and 5 of the row
// sources. Each is one pass, and equal to its definition in rules/Build (specs/Checks.antt).

#![tactic(auto)]

ghost use Rattle.std.specs.Prelude.{◌≡◌, ◌^◌, ◌<◌, ltb, drop};
ghost use Rattle.rules.specs.Base.{rising};
ghost use Rattle.build_ids.specs.Checks.{starts_with, RisingIds, checked_ids, missing_row, missing_row_of};

use types::LpId;

// 4: a 64-bit mask of the missing ids, and how many are unexpected.
#[derive(Clone, Copy)]
pub struct IdMismatch {
    pub missing: u64,
    pub unexpected: u64,
}

// Whether p is the number at that place.
fn is_at(xs: &[u32], at: usize, p: u64) -> bool
    ensures { result ≡ starts_with p (drop at xs.now) }
{
    xs.get(at).is_some_and(|&x| u64::from(x) == p)
}

// 3, and 5 of the row sources: whether each number is above the one before it.
pub fn rising(xs: &[u32]) -> bool
    ensures { result ≡ rising ltb xs.now }
{
    xs.is_sorted_by(|x, y| x < y)
}

// Kept as clauses: RisingIds asks that n is at most 64 of a plain number, since docs/WHERE.md names the
// functions that ask it, and they may take no narrower type.

// 4, of ids that rise: the numbers below n are looked for in turn, each where the last one ended.
pub fn check_ids(ids: &[u32], n: u64) -> IdMismatch
    requires { RisingIds n ids.now }
    ensures { result ≡ checked_ids n ids.now }
{
    let mut missing: u64 = 0;
    let mut at: usize = 0;
    for id in 0..n {
        if is_at(ids, at, id) {
            at += 1;
        } else {
            missing += 1 << id;
        }
    }
    let left = ids.len() - at;
    IdMismatch {
        missing,
        unexpected: left as u64,
    }
}

// 6, of sources that rise: the least process that has no row. Up to it, p's row is at place p.
pub fn least_without_row(sources: &[u32], n: u64) -> Option<LpId>
    requires { RisingIds n sources.now }
    ensures { missing_row_of result ≡ missing_row n sources.now }
{
    for p in 0..n {
        if !is_at(sources, p as usize, p) {
            return Some(LpId(p as u32));
        }
    }
    None
}
