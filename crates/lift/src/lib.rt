// A shown row taken out of a layer: the splice that strikes it, and its values as they are shown.
#![tactic(auto)]

ghost use Rattle.std.specs.Prelude.{◌≡◌, true, [], ◌+◌, ◌*◌, ◌≤◌, ◌<◌, length, get_or, take, drop};
ghost use Rattle.order.specs.Lists.{all};
ghost use Rattle.model.specs.Row.{row_at, columnwise};
ghost use Rattle.model.specs.Layer.{changed, rows_after};
ghost use Rattle.entry.specs.Look.{edits};
ghost use Rattle.model.specs.Read.{read};
ghost use Rattle.model.specs.Position.{back};
ghost use Rattle.fit.specs.Ready.{Fitting};
ghost use Rattle.plan.specs.Moves.{padded, strike_splice};
ghost use Rattle.lift.specs.Own.{own_change};

use entry::Stored;
use splice::Splice;
use words::Origin;

// The c numbers that lie w apart in a slice, from number s on, with zeros behind them.
fn row_at(c: usize, w: usize, xs: &[u64], s: usize) -> [u64; 8]
    requires { (c ≤ 8) × (w ≤ length xs.now) × (c * w + s < length xs.now + w) }
    ensures { result ≡ padded (row_at c w xs.now s) }
{
    let mut vals = [0u64; 8];
    let mut at = s;
    for j in 0..c {
        vals[j] = xs[at];
        at += w;
    }
    vals
}

// Base row s with its changes, which are the entries from number i up to `end`.
fn shown_row(w: usize, table: &[u64], s: usize, layer: &Stored, i: usize, end: usize) -> [u64; 8]
    requires { let c = layer.now.c in
        (end ≤ layer.now.m) × (w ≤ length table.now) × (c * w + s < length table.now + w)
        × (all (own_change c s) (drop i (take end (edits layer.now))) ≡ true) }
    ensures { let own = drop i (take end (edits layer.now)) in
        result ≡ padded (changed s own (row_at layer.now.c w table.now s)) }
{
    let mut row = row_at(layer.c, w, table, s);
    for k in i..end {
        let h = layer.head(k);
        let j = h.kind as usize;
        row[j] = h.first;
    }
    row
}

// A row taken out: the splice that strikes it, and its values, with zeros behind them.
#[derive(Clone, Copy)]
pub struct Lifted {
    pub splice: Splice,
    pub row: [u64; 8],
}

// Takes row number r, which is shown, out of a layer over the table whose c columns start w numbers apart; the keys are
// its first.
pub fn lift(w: usize, layer: &Stored, keys: &[u64], table: &[u64], r: usize) -> Lifted
    requires { let K = keys.now in Fitting layer.now K × (r < rows_after (length K) (edits layer.now))
        × (K ≡ take (length K) table.now) × (length K ≤ w) × (layer.now.c * w ≤ length table.now) }
    ensures { let K = keys.now in let L = edits layer.now in
        let T = columnwise layer.now.c (length K) w table.now in
        (result.splice ≡ strike_splice K L (back (length K) L r)) × (result.row ≡ padded (get_or (read T L) r [])) }
{
    match mark::origin_of(layer, keys.len(), r) {
        Origin::Base(s) => {
            let splice = plan::strike_base(layer, keys, s);
            let i = splice.i;
            let end = i + splice.gone;
            let row = shown_row(w, table, s, layer, i, end);
            Lifted { splice, row }
        }
        Origin::Added(i) => {
            let splice = plan::out(i);
            let row = row_at(layer.c, 1, layer.numbers, i * (layer.c + 2) + 2);
            Lifted { splice, row }
        }
    }
}
