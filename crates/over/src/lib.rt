// The keys that a lower layer leaves, found along an upper one: two marks in the lower layer move on with its rows.
#![tactic(auto)]

mod stack;

ghost use Rattle.std.specs.Prelude.{◌≡◌, ◌-◌, ◌≤◌, ◌<◌, length, get_or};
ghost use Rattle.model.specs.Layer.{rows_after};
ghost use Rattle.model.specs.Raw.{layer_of};
ghost use Rattle.model.specs.Read.{keys_after};
ghost use Rattle.entry.specs.Look.{edits, entry_of, entries_from};
ghost use Rattle.words.specs.Entry.{ADD};
ghost use Rattle.model.specs.Fit.{fit_place};
ghost use Rattle.form.specs.InForm.{InForm};
ghost use Rattle.head.specs.Head.{head_of};
ghost use Rattle.mark.specs.Walk.{Stays, way_at, Marks};
ghost use Rattle.over.specs.Over.{over, fits_by, named_by, Named, Over};
ghost use Rattle.over.specs.Stack.{lower_of, upper_of};

use entry::Stored;
use head::Head;
use mark::{Mark, Way};
pub use stack::Stack;
use words::Entry;

// The key of the mark's row, 0 past the last row.
fn key_of(r: &Stored, keys: &[u64], rows: usize, k: Mark) -> u64
    requires { let K = keys.now in let L = edits r.now in
        InForm r.now.c (length K) r.now.m r.now.numbers.now × (rows ≡ length (keys_after K L))
        × Marks L k × Stays (way_at L k) }
    ensures { result ≡ get_or (keys_after keys.now (edits r.now)) k.row 0 }
{
    if rows <= k.row {
        return 0;
    }
    match mark::way_at(r, k) {
        Way::Own(key) => key,
        Way::Before | Way::On(_) => keys.get(k.t).copied().unwrap_or(0),
    }
}

// The mark of the row before an entry's position, and that row's key.
#[derive(Clone, Copy)]
pub struct Last {
    pub mark: Mark,
    pub key: u64,
}

// The row before the position of an entry with the head e, or the first, sought for an add alone: nothing else is held to
// its key.
fn last_before(r: &Stored, keys: &[u64], rows: usize, low: Mark, e: Head) -> Last
    requires { let K = keys.now in let L = edits r.now in
        InForm r.now.c (length K) r.now.m r.now.numbers.now × (rows ≡ length (keys_after K L))
        × Marks L low × (e.pos ≤ 4096) }
    ensures { let N = keys_after keys.now (edits r.now) in
        Marks (edits r.now) result.mark × (e.kind ≡ ADD → result.key ≡ get_or N (e.pos - 1) 0) }
{
    if e.kind != Entry::ADD {
        return Last { mark: low, key: 0 };
    }
    let before = (e.pos as usize).saturating_sub(1);
    let mark = mark::seek(r, low, before);
    Last {
        mark,
        key: key_of(r, keys, rows, mark),
    }
}

// Entry j of the upper layer, which has the head e, fits `rows` keys, where `last` is the one before its position and
// `next` the one at it, after an entry with the head d.
fn fits(w: &Stored, j: usize, rows: usize, last: u64, next: u64, d: Head, e: Head) -> bool
    requires { (j < w.now.m) × (e ≡ head_of (entry_of w.now j)) }
    ensures { result ≡ fits_by rows last next d (entry_of w.now j) (entries_from w.now j) }
{
    match e.kind {
        Entry::ADD => suit::add_fits(w, j, rows, last, next, d),
        Entry::STRIKE => next == e.first,
        _ => true,
    }
}

// The key that an entry with the head e concerns, where `next` is the key at its position.
fn key_by(e: Head, next: u64) -> u64
    ensures { result ≡ named_by e next }
{
    match e.kind {
        Entry::ADD | Entry::STRIKE => e.first,
        _ => next,
    }
}

// The place of the least entry of the upper layer that does not fit the `rows` keys which the lower leaves, or the number
// of its entries. The keys that the entries before it concern go into `names`.
fn overlook(lower: &Stored, keys: &[u64], rows: usize, upper: &Stored, names: &mut [u64]) -> usize
    requires { let K = keys.now in let L = edits lower.now in
        InForm lower.now.c (length K) lower.now.m lower.now.numbers.now × (rows ≡ rows_after (length K) L)
        × InForm upper.now.c rows upper.now.m upper.now.numbers.now × (upper.now.m ≤ length names.old) }
    ensures { let N = keys_after keys.now (edits lower.now) in
        (result ≡ fit_place N (edits upper.now)) × Named upper.now.c N result upper.now.numbers.now names.new }
{
    let mut d = Head::new(0, 0, 0);
    let mut low = Mark::first();
    let mut here = Mark::first();
    for j in 0..upper.m {
        let e = upper.head(j);
        let last = last_before(lower, keys, rows, low, e);
        low = last.mark;
        here = mark::seek(lower, here, e.pos as usize);
        let next = key_of(lower, keys, rows, here);
        if !fits(upper, j, rows, last.key, next, d, e) {
            return j;
        }
        names[j] = key_by(e, next);
        d = e;
    }
    upper.m
}

impl<'a> Stack<'a> {
    // The lower layer.
    pub fn lower(&self) -> Stored<'a>
        ensures { result ≡ lower_of self.now }
    {
        Stored {
            c: self.c,
            m: self.mr,
            numbers: self.r,
        }
    }

    // The upper layer.
    pub fn upper(&self) -> Stored<'a>
        ensures { result ≡ upper_of self.now }
    {
        Stored {
            c: self.c,
            m: self.mw,
            numbers: self.w,
        }
    }
}

// The place of the least entry of the upper layer that does not fit the keys which the lower leaves, or the number of
// its entries. The keys that the entries before it concern go into `names`.
pub fn fit_over(s: &Stack, rows: usize, names: &mut [u64]) -> usize
    requires { Over s.now.c s.now.keys.now s.now.mr s.now.r.now rows s.now.mw s.now.w.now (length names.old) }
    ensures { let N = over s.now.c s.now.keys.now s.now.mr s.now.r.now in
        (result ≡ fit_place N (layer_of s.now.c s.now.mw s.now.w.now)) × Named s.now.c N result s.now.w.now names.new }
{
    overlook(&s.lower(), s.keys, rows, &s.upper(), names)
}
