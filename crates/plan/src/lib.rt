// What an edit does to a layer, one splice or one value set: found by looking, with nothing written.
#![tactic(auto)]

ghost use Rattle.std.specs.Prelude.{◌≡◌, false, ◌≤◌, ◌<◌, length};
ghost use Rattle.model.specs.Row.{key};
ghost use Rattle.model.specs.Cell.{to};
ghost use Rattle.model.specs.Layer.{struck, rows_after};
ghost use Rattle.entry.specs.Look.{edits};
ghost use Rattle.model.specs.Read.{keys_after};
ghost use Rattle.model.specs.Refusals.{shown_key};
ghost use Rattle.words.specs.declared.Origin.TheVariants.{Base};
ghost use Rattle.model.specs.Position.{back};
ghost use Rattle.model.specs.Edits.{change_base, change_row_no};
ghost use Rattle.write.specs.Plans.{Plans};
ghost use Rattle.fit.specs.Ready.{Fitting};
ghost use Rattle.plan.specs.Moves.{padded, add_splice, out_of, strike_splice};

use enter::{Move, Value};
use entry::Stored;
use head::Head;
use splice::Splice;
use words::{Entry, Origin};

// A row of at most eight values, with zeros behind it.
fn eight(row: &[u64]) -> [u64; 8]
    requires { length row.now ≤ 8 }
    ensures { result ≡ padded row.now }
{
    let mut vals = [0u64; 8];
    run::copy_in(row, &mut vals, 0);
    vals
}

// The splice that adds a row, and whether its key is shown already: no Option, since the contract says the splice
// either way.
#[derive(Clone, Copy)]
pub struct Adding {
    pub shown: bool,
    pub splice: Splice,
}

// Adds a row of c values.
pub fn add(layer: &Stored, keys: &[u64], row: &[u64]) -> Adding
    requires { Fitting layer.now keys.now × (length row.now ≡ layer.now.c) }
    ensures { let K = keys.now in let L = edits layer.now in
        (result.shown ≡ shown_key (key row.now) (keys_after K L))
        × (result.splice ≡ add_splice K L row.now) }
{
    let k = row[0];
    let p = keys::below(k, keys);
    let s = p as u64;
    let i = landing::landing(layer, Head::new(s, Entry::ADD, k));
    let shown = landing::is_shown(layer, keys, k, p, i);
    let entry = Entry::add(s, eight(row));
    let splice = Splice {
        i,
        gone: 0,
        comes: Some(entry),
    };
    Adding { shown, splice }
}

// Entry number i goes, and none comes.
pub fn out(i: usize) -> Splice
    ensures { result ≡ out_of i }
{
    Splice {
        i,
        gone: 1,
        comes: None,
    }
}

// Strikes base row s, which is shown: its changes go, and a strike with its key comes.
pub fn strike_base(layer: &Stored, keys: &[u64], s: usize) -> Splice
    requires { Fitting layer.now keys.now × (s < length keys.now) × (struck s (edits layer.now) ≡ false) }
    ensures { result ≡ strike_splice keys.now (edits layer.now) (Base s) }
{
    let p = s as u64;
    let i = landing::landing(layer, Head::new(p, Entry::STRIKE, 0));
    let end = landing::landing(layer, Head::new(p + 1, Entry::ADD, 0));
    let gone = end - i;
    let entry = Entry::strike(p, keys[s]);
    Splice {
        i,
        gone,
        comes: Some(entry),
    }
}

// Strikes row number r, which is shown: an added row's entry goes; a base row loses its changes and gains a strike.
pub fn strike(layer: &Stored, keys: &[u64], r: usize) -> Splice
    requires { Fitting layer.now keys.now × (r < rows_after (length keys.now) (edits layer.now)) }
    ensures { let K = keys.now in let L = edits layer.now in result ≡ strike_splice K L (back (length K) L r) }
{
    match mark::origin_of(layer, keys.len(), r) {
        Origin::Base(s) => strike_base(layer, keys, s),
        Origin::Added(i) => out(i),
    }
}

// Changes column j of base row s to v: the change of that column gets the value, or a new one is entered in column
// order.
fn change_base(layer: &Stored, keys: &[u64], s: usize, j: usize, v: u64) -> Move
    requires { Fitting layer.now keys.now × (s < length keys.now) × (1 ≤ j) × (j < layer.now.c) }
    ensures { let L = edits layer.now in Plans layer.now.c L (change_base s j (to v) L) result }
{
    let p = s as u64;
    let column = j as u64;
    let i = landing::landing(layer, Head::new(p, column, 0));
    if landing::changes(layer, i, p, column) {
        return Move::Number(Value { i, j: 0, v });
    }
    let entry = Entry::change(p, column, v);
    Move::Entries(Splice {
        i,
        gone: 0,
        comes: Some(entry),
    })
}

// Changes column j of row number r, which is shown, to v: an added row gets the value; a base row's change of j gets
// it, or is entered in column order.
pub fn change(layer: &Stored, keys: &[u64], r: usize, j: usize, v: u64) -> Move
    requires { Fitting layer.now keys.now × (r < rows_after (length keys.now) (edits layer.now)) × (1 ≤ j)
        × (j < layer.now.c) }
    ensures { let L = edits layer.now in Plans layer.now.c L (change_row_no keys.now r j (to v) L) result }
{
    match mark::origin_of(layer, keys.len(), r) {
        Origin::Base(s) => change_base(layer, keys, s, j, v),
        Origin::Added(i) => Move::Number(Value { i, j, v }),
    }
}
