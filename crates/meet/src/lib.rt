// What the next entries of two layers make of each other: by the keys that they concern, then by their kinds.
#![tactic(auto)]

ghost use Rattle.std.specs.Prelude.{◌≡◌, ◌≤◌, length, drop};
ghost use Rattle.entry.specs.Look.{edits};
ghost use Rattle.woven.specs.Woven.{meet_kinds, changes_ahead};
ghost use Rattle.meet.specs.Meet.{key_in, Keyed, meets_by};

use entry::{Sight, Stored};
use head::Head;
use words::Entry;
use woven::Meets;

// What two entries for one key make of each other, the lower layer's of kind d and the upper's of kind q.
fn meeting(d: u64, q: u64) -> Meets
    ensures { result ≡ meet_kinds d q }
{
    if q == Entry::ADD {
        return Meets::UpperHere;
    }
    if d == Entry::ADD {
        if q == Entry::STRIKE {
            return Meets::Vanish;
        }
        return Meets::Patch;
    }
    if (q == Entry::STRIKE) | (d == Entry::STRIKE) {
        return Meets::Drop;
    }
    if d < q {
        return Meets::Lower;
    }
    if d == q {
        return Meets::Fuse;
    }
    Meets::UpperHere
}

// The key that an entry concerns, over a key column.
pub fn key_of(h: Head, keys: &[u64]) -> u64
    requires { Keyed h (length keys.now) }
    ensures { result ≡ key_in keys.now h }
{
    if (h.kind == Entry::ADD) | (h.kind == Entry::STRIKE) {
        return h.first;
    }
    let s = h.pos as usize;
    keys[s]
}

// What two entries make of each other: the one for the lower key goes first, the lower layer's for a and the upper's for b.
pub fn meets(lower: Head, a: u64, upper: Head, b: u64) -> Meets
    ensures { result ≡ meets_by a b lower.kind upper.kind }
{
    if a < b {
        return Meets::Lower;
    }
    if b < a {
        return Meets::Upper;
    }
    meeting(lower.kind, upper.kind)
}

// How many changes at p stand from entry number `from` on.
pub fn changes_ahead(layer: &Stored, p: u64, from: usize) -> usize
    requires { from ≤ layer.now.m }
    ensures { result ≡ changes_ahead p (drop from (edits layer.now)) }
{
    for i in from..layer.m {
        match layer.sight(i) {
            Sight::Change(s, _, _) if s == p => {}
            _ => return i - from,
        }
    }
    layer.m - from
}
