// Where an edit lands among the entries of a layer, and what stands there: the change that it replaces, a shown key.
#![tactic(auto)]

ghost use Rattle.std.specs.Prelude.{◌≡◌, drop};
ghost use Rattle.order.proofs.Pairs.{AllPairs};
ghost use Rattle.entry.specs.Look.{edits};
ghost use Rattle.head.specs.Head.{seen};
ghost use Rattle.model.specs.Edits.{before};
ghost use Rattle.words.specs.Entry.{ADD};
ghost use Rattle.model.specs.Fit.{keys_below};
ghost use Rattle.model.specs.Read.{keys_after};
ghost use Rattle.model.specs.Refusals.{shown_key};
ghost use Rattle.fit.specs.Ready.{Fitting};
ghost use Rattle.landing.specs.Landing.{aim, landing, changes_first, key_is};

use entry::{Sight, Stored};
use head::Head;

// How many entries of a layer, which stand in order, stand before one with the head e: at least lo and at most hi,
// halved until they meet. An entry is c + 2 numbers, so there is no slice of entries for the library to halve.
pub fn landing(layer: &Stored, e: Head) -> usize
    requires { AllPairs before (edits layer.now) }
    ensures { result ≡ landing (seen e) (edits layer.now) }
{
    let mut lo: usize = 0;
    let mut hi = layer.m;
    while lo < hi {
        let mid = lo + (hi - lo) / 2;
        if head::stands_before(layer.head(mid), e) {
            lo = mid + 1;
        } else {
            hi = mid;
        }
    }
    lo
}

// Entry number i is there and changes column j of base row s.
pub fn changes(layer: &Stored, i: usize, s: u64, j: u64) -> bool
    ensures { result ≡ changes_first s j (drop i (edits layer.now)) }
{
    match layer.look(i) {
        Some(Sight::Change(p, k, _)) => (s == p) & (j == k),
        _ => false,
    }
}

// Key number p is there and is k.
fn key_is(keys: &[u64], p: usize, k: u64) -> bool
    ensures { result ≡ key_is p k keys.now }
{
    keys.get(p) == Some(&k)
}

// Key k is shown, where p base keys lie below it and its add would land at i: by the add that stands there, or by base
// row p, unless its strike stands there.
pub fn is_shown(layer: &Stored, keys: &[u64], k: u64, p: usize, i: usize) -> bool
    requires { Fitting layer.now keys.now × (p ≡ keys_below k keys.now)
        × (i ≡ landing (aim p ADD k) (edits layer.now)) }
    ensures { result ≡ shown_key k (keys_after keys.now (edits layer.now)) }
{
    let s = p as u64;
    let base = key_is(keys, p, k);
    match layer.look(i) {
        Some(Sight::Add(t, v)) => base | ((t == s) & (v == k)),
        Some(Sight::Strike(t, _)) => base & (t != s),
        _ => base,
    }
}
