// Change: the splice of a base row's change, planned and entered, or one value set.
#![tactic(auto)]

ghost use Rattle.std.specs.Prelude.{◌≡◌};
ghost use Rattle.model.specs.Calls.{change_answer, change_slice};

use entry::Stored;
use words::{Cause, Refusal};

// Change column j of row number r to v: an added row gets the value; a base row's change of j gets it, or is entered in
// column order. An equal value is entered too.
// It takes (c, m, layer) as they are lent: they make no Stored before the form check.
pub fn change(
    c: usize,
    m: usize,
    layer: &mut [u64],
    keys: &[u64],
    r: usize,
    j: usize,
    v: u64,
) -> Result<usize, Refusal>
    ensures { let L = layer.old in let K = keys.now in
        (result ≡ change_answer c m L K r j v) × (layer.new ≡ change_slice c m L K r j v) }
{
    if c <= j {
        return words::refused(Cause::BadArguments, 0);
    }
    let rows = fit::ready(c, m, layer, keys)?;
    if rows <= r {
        return words::refused(Cause::NoSuchRow, 0);
    }
    if j == 0 {
        return words::refused(Cause::KeyColumn, 0);
    }
    let stored = Stored {
        c,
        m,
        numbers: layer,
    };
    let x = plan::change(&stored, keys, r, j, v);
    enter::enter(c, m, x, layer)
}
