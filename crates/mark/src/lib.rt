// The way from a row number to what stands there, resumable: the mark of one row serves to find that of a later one.
#![tactic(auto)]

ghost use Rattle.std.specs.Prelude.{◌≡◌, true, ◌+◌, ◌*◌, ◌≤◌, ◌<◌};
ghost use Rattle.model.specs.Layer.{rows_after};
ghost use Rattle.entry.specs.Look.{edits};
ghost use Rattle.model.specs.Form.{in_order};
ghost use Rattle.model.specs.Position.{back};
ghost use Rattle.mark.specs.Walk.{way_by, way_at, Stays, fresh, toward, past, Marks};

use entry::{Sight, Stored};
use words::Origin;

// A place in a layer on the way to a row of what it shows: entry number i. Were there no entries but those from there
// on, the row would be base row t.
#[derive(Clone, Copy)]
pub struct Mark {
    pub i: usize,
    pub row: usize,
    pub t: usize,
}

impl Mark {
    // The mark of row 0, with nothing passed.
    pub fn first() -> Self
        ensures { result ≡ fresh 0 }
    {
        Self { i: 0, row: 0, t: 0 }
    }

    // The same place on the way to another row, or the first entry where that row lies before the mark's own.
    fn toward(self, row: usize) -> Self
        requires { (self.t ≤ self.row + 512) × (row ≤ 8192) }
        ensures { result ≡ toward self row }
    {
        if row < self.row {
            return Self { i: 0, row, t: row };
        }
        Self {
            i: self.i,
            row,
            t: self.t + (row - self.row),
        }
    }

    // The entry after this one, past which the row would be base row t.
    fn past(self, t: usize) -> Self
        requires { self.i < 512 }
        ensures { result ≡ past self t }
    {
        Self {
            i: self.i + 1,
            row: self.row,
            t,
        }
    }
}

// The way at an entry: the row is the base row before it; or it is the entry's own, with this key; or the entry is passed,
// and the row would be this base row.
#[derive(Clone, Copy)]
pub enum Way {
    Before,
    Own(u64),
    On(usize),
}

// The way at an entry, for the row that would be base row t.
fn way_of(found: Option<Sight>, t: usize) -> Way
    requires { t ≤ 8192 }
    ensures { result ≡ way_by found t }
{
    match found {
        Some(Sight::Add(p, key)) => {
            if p < t as u64 {
                return Way::On(t - 1);
            }
            if p == t as u64 {
                return Way::Own(key);
            }
            Way::Before
        }
        Some(Sight::Strike(p, _)) => {
            if (t as u64) < p {
                return Way::Before;
            }
            Way::On(t + 1)
        }
        Some(Sight::Change(p, _, _)) => {
            if (t as u64) < p {
                return Way::Before;
            }
            Way::On(t)
        }
        None => Way::Before,
    }
}

// The way at a mark.
pub fn way_at(layer: &Stored, k: Mark) -> Way
    requires { k.t ≤ 8192 }
    ensures { result ≡ way_at (edits layer.now) k }
{
    way_of(layer.look(k.i), k.t)
}

// The mark of a row, sought on from a mark of an earlier one.
pub fn seek(layer: &Stored, mark: Mark, row: usize) -> Mark
    requires { Marks (edits layer.now) mark × (row ≤ 4608) }
    ensures { let L = edits layer.now in Marks L result × (result.row ≡ row) × Stays (way_at L result) }
{
    let mut k = mark.toward(row);
    while let Way::On(t) = way_at(layer, k) {
        k = k.past(t);
    }
    k
}

// What stands at row r of a layer in order.
pub fn origin_of(layer: &Stored, n: usize, r: usize) -> Origin
    requires { let L = edits layer.now in
        (n ≤ 4096) × (in_order layer.now.c n L ≡ true) × (r < rows_after n L) }
    ensures { result ≡ back n (edits layer.now) r }
{
    let k = seek(layer, Mark::first(), r);
    match way_at(layer, k) {
        Way::Own(_) => Origin::Added(k.i),
        Way::Before | Way::On(_) => Origin::Base(k.t),
    }
}
