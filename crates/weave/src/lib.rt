// Two layers woven into one: the entries that they make together, counted, and written to the front of a slice where asked.
#![tactic(auto)]

ghost use Rattle.std.specs.Prelude.{◌≡◌, true, ◌∷◌, ◌+◌, ◌*◌, ◌-◌, ◌≤◌, ◌<◌, length, take, drop};
ghost use Rattle.model.specs.Raw.{layer_of, flat};
ghost use Rattle.entry.specs.Look.{edits, entry_of};
ghost use Rattle.woven.specs.Woven.{patched, woven_layer};
ghost use Rattle.over.specs.Over.{over};
ghost use Rattle.turn.specs.Turn.{left, Both};
ghost use Rattle.weave.specs.Written.{Put, PutIf, Row, Leaves, Rest, WovenIf};

use entry::{Sight, Stored};
use over::Stack;
use turn::{Place, Puts};

// Writes entry number i to the slice from o on, at position p.
fn put_entry(layer: &Stored, i: usize, p: u64, out: &mut [u64], o: usize)
    requires { (i < layer.now.m) × (o + (layer.now.c + 2) ≤ length out.old) }
    ensures { let e = entry_of layer.now i in Put (p ∷ e.kind ∷ e.vals) out.old o out.new }
{
    let at = i * (layer.c + 2);
    out[o] = p;
    let kind = layer.kind(i);
    let first = layer.value(i, 0);
    out[o + 1] = kind;
    out[o + 2] = first;
    pairs::copy_pairs(at + 3, at + (layer.c + 2), layer.numbers, out, o + 3);
}

// Makes the changes at p that stand from entry number `from` on to a row.
fn patch(layer: &Stored, p: u64, from: usize, row: &mut [u64])
    requires { Row layer.now from (length row.old) }
    ensures { row.new ≡ patched p (drop from (edits layer.now)) row.old }
{
    for i in from..layer.m {
        match layer.sight(i) {
            Sight::Change(s, j, v) if s == p => {
                row[j as usize] = v;
            }
            _ => {
                return;
            }
        }
    }
}

// Writes the entry that a turn from the place k leaves behind the m entries that stand in the slice where the walk writes,
// else nothing. It asks whether to write once it knows what is left: asked before, the entry would be told apart twice.
fn put(write: bool, s: &Stack, k: Place, puts: Option<Puts>, out: &mut [u64])
    requires { let S = s.now in Leaves write S.c S.mr S.r.now S.mw S.w.now k puts (length out.old) }
    ensures { let S = s.now in PutIf write
        (flat S.c (left puts (drop k.i (layer_of S.c S.mr S.r.now)) (drop k.j (layer_of S.c S.mw S.w.now))))
        out.old (k.m * (S.c + 2)) out.new }
{
    let lower = s.lower();
    let upper = s.upper();
    let o = k.m * (s.c + 2);
    match puts {
        None => {}
        Some(Puts::AsItIs) => {
            if write {
                put_entry(&lower, k.i, lower.pos(k.i), out, o);
            }
        }
        Some(Puts::UpperAt(p)) => {
            if write {
                put_entry(&upper, k.j, p, out, o);
            }
        }
        Some(Puts::Changed) => {
            if write {
                put_entry(&lower, k.i, lower.pos(k.i), out, o);
                let a = o + 2;
                let e = a + s.c;
                patch(&upper, upper.pos(k.j), k.j, &mut out[a..e]);
            }
        }
        // A change sets its cell, so the upper layer's value stands.
        Some(Puts::Fused) => {
            if write {
                put_entry(&upper, k.j, lower.pos(k.i), out, o);
            }
        }
    }
}

// Writes the lower layer's entries from i on behind m entries where the walk writes, else nothing.
fn rest_if(write: bool, c: usize, mr: usize, r: &[u64], i: usize, m: usize, out: &mut [u64])
    requires { Rest write c mr r.now i m (length out.old) }
    ensures { PutIf write (take (mr * (c + 2) - i * (c + 2)) (drop (i * (c + 2)) r.now))
        out.old (m * (c + 2)) out.new }
{
    if write {
        let wide = c + 2;
        let at = i * wide;
        let end = mr * wide;
        run::copy_in(&r[at..end], out, m * wide);
    }
}

// Walks along both layers and returns how many entries they make together, which it writes to the front of the slice where
// `write` says so.
pub fn weave(write: bool, s: &Stack, names: &[u64], out: &mut [u64]) -> usize
    requires { let S = s.now in let K = S.keys.now in let N = over S.c K S.mr S.r.now in
        Both S.c K N S.mr S.r.now S.mw S.w.now names.now
        × (write ≡ true → length (woven_layer K N (layer_of S.c S.mr S.r.now) (layer_of S.c S.mw S.w.now)) * (S.c + 2)
        ≤ length out.old) }
    ensures { let S = s.now in let K = S.keys.now in WovenIf write S.c
        (woven_layer K (over S.c K S.mr S.r.now) (layer_of S.c S.mr S.r.now) (layer_of S.c S.mw S.w.now))
        result out.old out.new }
{
    let mut k = Place::first();
    // No `for`: a turn passes as many entries as it does.
    while k.j < s.mw {
        let t = turn::next(s, names, k);
        put(write, s, k, t.puts, out);
        k = t.to;
    }
    let i = k.i;
    let m = k.m;
    rest_if(write, s.c, s.mr, s.r, i, m, out);
    m + (s.mr - i)
}
