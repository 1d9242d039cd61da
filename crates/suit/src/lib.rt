// Whether one entry of a layer in form fits the key column, alone and after the one before it.
#![tactic(auto)]

ghost use Rattle.std.specs.Prelude.{◌≡◌, true, ◌-◌, ◌<◌, length, get_or};
ghost use Rattle.model.specs.Raw.{edit_of};
ghost use Rattle.words.specs.Entry.{ADD};
ghost use Rattle.model.specs.Form.{sound};
ghost use Rattle.entry.specs.Look.{entry_of, entries_from};
ghost use Rattle.suit.specs.Suit.{struck_ahead, rises_kind, add_fits, fits_after};

use entry::Stored;
use head::Head;
use words::Entry;

// An add equal to the base key at s looks ahead: a strike stands among the entries at s from entry i on.
fn strike_ahead(layer: &Stored, i: usize, s: u64) -> bool
    ensures { result ≡ struck_ahead s (entries_from layer.now i) }
{
    for j in i..layer.m {
        if layer.pos(j) != s {
            return false;
        }
        if layer.kind(j) == Entry::STRIKE {
            return true;
        }
    }
    false
}

// The key at position s, or 0.
fn key_there(s: usize, keys: &[u64]) -> u64
    ensures { result ≡ get_or keys.now s 0 }
{
    keys.get(s).copied().unwrap_or(0)
}

// The key before position s, where it is past 0.
fn key_before(s: usize, keys: &[u64]) -> u64
    ensures { result ≡ get_or keys.now (s - 1) 0 }
{
    key_there(s.saturating_sub(1), keys)
}

// An add at s with key v may stand after an entry with the head d.
fn rises(d: Head, s: u64, v: u64) -> bool
    ensures { result ≡ rises_kind d.pos d.kind d.first s ADD v }
{
    (d.pos != s) | ((d.kind != Entry::ADD) | (d.first < v))
}

// Entry i, an add, fits a column of n keys, where `last` is the key before its position and `next` the one at it, after one
// with the head d.
pub fn add_fits(layer: &Stored, i: usize, n: usize, last: u64, next: u64, d: Head) -> bool
    requires { i < layer.now.m }
    ensures { result ≡ add_fits n last next d.pos d.kind d.first (entry_of layer.now i)
        (entries_from layer.now i) }
{
    let e = layer.head(i);
    let low = ((e.pos == 0) | (last < e.first)) & rises(d, e.pos, e.first);
    if n as u64 <= e.pos {
        return low;
    }
    if e.first != next {
        return low & (e.first < next);
    }
    low & strike_ahead(layer, i, e.pos)
}

// Entry i breaks no rule of fit alone, nor after one with the head d.
pub fn fits_after(layer: &Stored, i: usize, keys: &[u64], d: Head) -> bool
    requires { (i < layer.now.m) × (sound layer.now.c (length keys.now) (edit_of (entry_of layer.now i)) ≡ true) }
    ensures { result ≡ fits_after keys.now d.pos d.kind d.first (entry_of layer.now i)
        (entries_from layer.now i) }
{
    let e = layer.head(i);
    let s = e.pos as usize;
    if e.kind == Entry::ADD {
        let last = key_before(s, keys);
        let next = key_there(s, keys);
        return add_fits(layer, i, keys.len(), last, next, d);
    }
    if e.kind == Entry::STRIKE {
        return keys[s] == e.first;
    }
    true
}
