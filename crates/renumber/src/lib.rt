// Renumber: the refusals in the table's order, then the row, which is shown, goes and comes again with another number.
#![tactic(auto)]

ghost use Rattle.std.specs.Prelude.{◌≡◌, ◌&&◌, ◌*◌, ◌≤◌, length, leb};
ghost use Rattle.model.specs.Row.{columnwise};
ghost use Rattle.model.specs.Raw.{layer_of};
ghost use Rattle.model.specs.Edits.{renumber_row};
ghost use Rattle.model.specs.Calls.{edited, renumber_over, renumber_answer, renumber_slice};

use words::{Cause, Refusal};

// A table is lent whole: n rows, whose c columns start w numbers apart in a slice of len numbers.
fn lent_whole(c: usize, n: usize, w: usize, len: usize) -> bool
    requires { 1 ≤ c }
    ensures { result ≡ leb n w && leb (c * w) len }
{
    (n <= w) & (w <= len / c)
}

// Renumber row number r to g, over a table of n rows whose c columns start w numbers apart.
// It takes (c, m, layer) as they are lent: they make no Stored before the form check.
pub fn renumber_apart(
    c: usize,
    n: usize,
    w: usize,
    m: usize,
    layer: &mut [u64],
    table: &[u64],
    r: usize,
    g: u64,
) -> Result<usize, Refusal>
    ensures { let L = layer.old in let B = table.now in let T = columnwise c n w B in
        let answer = renumber_over (leb n w && leb (c * w) (length B)) c m L T r g in
        (result ≡ answer) × (layer.new ≡ edited c m answer (renumber_row T r g (layer_of c m L)) L) }
{
    if !form::args_ok(c, n, m, layer.len()) {
        return words::refused(Cause::BadArguments, 0);
    }
    if !lent_whole(c, n, w, table.len()) {
        return words::refused(Cause::BadArguments, 0);
    }
    let keys = &table[..n];
    let rows = fit::ready(c, m, layer, keys)?;
    if rows <= r {
        return words::refused(Cause::NoSuchRow, 0);
    }
    reseat::reseat(c, w, m, layer, keys, table, r, g)
}

// Renumber row number r to g, over a table of n rows whose c columns stand end to end: the row's other values stay as they
// are shown. Its own number changes nothing.
pub fn renumber(
    c: usize,
    n: usize,
    m: usize,
    layer: &mut [u64],
    table: &[u64],
    r: usize,
    g: u64,
) -> Result<usize, Refusal>
    ensures { let L = layer.old in let B = table.now in
        (result ≡ renumber_answer c n m L B r g) × (layer.new ≡ renumber_slice c n m L B r g) }
{
    renumber_apart(c, n, n, m, layer, table, r, g)
}
