// A row that is shown goes and comes again with another number: two splices, planned and entered together.
#![tactic(auto)]

ghost use Rattle.std.specs.Prelude.{◌≡◌, length};
ghost use Rattle.model.specs.Row.{columnwise};
ghost use Rattle.model.specs.Raw.{layer_of};
ghost use Rattle.model.specs.Edits.{renumber_row};
ghost use Rattle.model.specs.Calls.{edited};
ghost use Rattle.reseat.specs.Rest.{renumber_rest, Asked};

use entry::Stored;
use words::{Cause, Refusal};

// Renumbers row number r, which is shown, to g: the row goes and comes again with its other values as they are shown,
// in one move of what stands between the two places and one of what stands behind both.
// (c, m, layer) stand apart: a Stored is read, and this layer has other entries afterwards.
pub fn reseat(
    c: usize,
    w: usize,
    m: usize,
    layer: &mut [u64],
    keys: &[u64],
    table: &[u64],
    r: usize,
    g: u64,
) -> Result<usize, Refusal>
    requires { Asked c w m layer.old keys.now table.now r }
    ensures { let L = layer.old in let T = columnwise c (length keys.now) w table.now in
        (result ≡ renumber_rest c (length L) T (layer_of c m L) r g)
        × (layer.new ≡ edited c m result (renumber_row T r g (layer_of c m L)) L) }
{
    let stored = Stored {
        c,
        m,
        numbers: layer,
    };
    let lifted = lift::lift(w, &stored, keys, table, r);
    let out = lifted.splice;
    let mut row = lifted.row;
    let own = row[0];
    if own == g {
        return Ok(m);
    }
    row[0] = g;
    let into = plan::add(&stored, keys, &row[..c]);
    if into.shown {
        return words::refused(Cause::KeyShown, 0);
    }
    let x = enter::in_key_order(g < own, out, into.splice);
    enter::enter(c, m, x, layer)
}
