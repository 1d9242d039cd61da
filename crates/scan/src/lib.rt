// One pass over the entries of a layer: the first that breaks a rule of form, and the adds and strikes before it.
#![tactic(auto)]

ghost use Rattle.std.specs.Prelude.{◌≡◌, List, ℕ, ◌≤◌, ◌<◌, length, drop, get_or, eqb};
ghost use Rattle.order.specs.Lists.{all, count};
ghost use Rattle.words.specs.declared.Entry.{Entry};
ghost use Rattle.words.specs.Entry.{ADD, STRIKE};
ghost use Rattle.model.specs.Raw.{entries_of, none};
ghost use Rattle.head.specs.Head.{head_of};
ghost use Rattle.scan.specs.Scan.{follows_kind, base_good, alone_good, good, of_kind};
ghost use Rattle.scan.specs.Pass.{fresh, passed};
ghost use Rattle.scan.specs.Slice.{slice_wide, slice_few};

use entry::Stored;
use head::Head;
use words::Entry;

// The entries of a layer, wherever they stand.
pub trait Entries {
    ghost entries: { Self → List Entry };

    ghost columns: { Self → ℕ };

    // How many values an entry has.
    fn columns(&self) -> usize
        ensures { result ≡ columns self.now };

    // How many entries there are.
    fn count(&self) -> usize
        ensures { result ≡ length (entries self.now) };

    // The head of entry i.
    fn head(&self, i: usize) -> Head
        requires { i < length (entries self.now) }
        ensures { result ≡ head_of (get_or (entries self.now) i none) };

    // Its value j.
    fn value(&self, i: usize, j: usize) -> u64
        requires { (i < length (entries self.now)) × (j < columns self.now) }
        ensures { result ≡ get_or (get_or (entries self.now) i none).vals j 0 };

    // Each has a value for every column.
    ghost wide: { (x : Self) (i : ℕ) → i < length (entries x) → length (get_or (entries x) i none).vals ≡ columns x };

    // They are no more than a layer may have.
    ghost few: { (x : Self) → length (entries x) ≤ 512 };
}

impl Entries for Stored<'_> {
    ghost entries = { λ l. entries_of l.c l.m l.numbers.now };

    ghost columns = { λ l. l.c };

    ghost wide = { slice_wide };

    ghost few = { slice_few };

    fn columns(&self) -> usize {
        self.c
    }

    fn count(&self) -> usize {
        self.m
    }

    fn head(&self, i: usize) -> Head {
        Stored::head(self, i)
    }

    fn value(&self, i: usize, j: usize) -> u64 {
        Stored::value(self, i, j)
    }
}

// How many entries stand before the first that breaks a rule, and how many of them are adds and strikes.
#[derive(Clone, Copy)]
pub struct Scan {
    pub place: usize,
    pub adds: usize,
    pub strikes: usize,
}

impl Scan {
    // Before the first entry.
    pub fn first() -> Self
        ensures { result ≡ fresh }
    {
        Self {
            place: 0,
            adds: 0,
            strikes: 0,
        }
    }

    // One entry more, of this kind.
    pub fn with(self, kind: u64) -> Self
        requires { (self.place < 512) × (self.adds ≤ self.place) × (self.strikes ≤ self.place) }
        ensures { result ≡ passed self kind }
    {
        Self {
            place: self.place + 1,
            adds: self.adds + usize::from(kind == Entry::ADD),
            strikes: self.strikes + usize::from(kind == Entry::STRIKE),
        }
    }
}

// An entry with the head e may stand after one with the head d.
pub fn follows(d: Head, e: Head) -> bool
    ensures { result ≡ follows_kind d.pos d.kind e.pos e.kind }
{
    if d.pos < e.pos {
        return true;
    }
    let rising = (e.kind != Entry::ADD) & ((e.kind != Entry::STRIKE) & (d.kind < e.kind));
    (d.pos == e.pos) & ((d.kind == Entry::ADD) | ((d.kind != Entry::STRIKE) & rising))
}

// The values of entry i after the first are all zero.
fn tail_zero<E: Entries>(es: &E, i: usize) -> bool
    requires { i < length (E.entries es.now) }
    ensures { result ≡ all (λ v. eqb v 0) (drop 1 (get_or (E.entries es.now) i none).vals) }
{
    let mut zero = true;
    for j in 1..es.columns() {
        zero = zero & (es.value(i, j) == 0);
    }
    zero
}

// An entry with the head e, which is no add: it stands below n, and strikes or changes a column past the key.
pub fn base_good(c: usize, n: usize, e: Head) -> bool
    ensures { result ≡ base_good c n e.pos e.kind }
{
    let column = (1 <= e.kind) & (e.kind < c as u64);
    (e.pos < n as u64) & ((e.kind == Entry::STRIKE) | column)
}

// Entry i breaks no rule alone.
pub fn alone_good<E: Entries>(n: usize, es: &E, i: usize) -> bool
    requires { i < length (E.entries es.now) }
    ensures { result ≡ alone_good (E.columns es.now) n (get_or (E.entries es.now) i none) }
{
    let e = es.head(i);
    if e.kind == Entry::ADD {
        return e.pos <= n as u64;
    }
    if !base_good(es.columns(), n, e) {
        return false;
    }
    tail_zero(es, i)
}

// The pass over all entries. Each test is a branch of its own, which no entry of an accepted layer takes.
pub fn scan_entries<E: Entries>(n: usize, es: &E) -> Scan
    ensures { let front = good (E.columns es.now) n (E.entries es.now) in
        (result.place ≡ length front) × (result.adds ≡ count (of_kind ADD) front)
        × (result.strikes ≡ count (of_kind STRIKE) front) }
{
    let mut found = Scan::first();
    let mut d = Head {
        pos: 0,
        kind: Entry::ADD,
        first: 0,
    };
    for i in 0..es.count() {
        let e = es.head(i);
        if !alone_good(n, es, i) {
            return found;
        }
        if !follows(d, e) {
            return found;
        }
        found = found.with(e.kind);
        d = e;
    }
    found
}

// The pass over a layer in a slice.
pub fn scan_layer(n: usize, layer: &Stored) -> Scan
    ensures { let front = good layer.now.c n (entries_of layer.now.c layer.now.m layer.now.numbers.now) in
        (result.place ≡ length front) × (result.adds ≡ count (of_kind ADD) front)
        × (result.strikes ≡ count (of_kind STRIKE) front) }
{
    scan_entries(n, layer)
}
