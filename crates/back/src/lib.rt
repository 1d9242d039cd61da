// Back from a row number to what stands there.
#![tactic(auto)]

ghost use Rattle.std.specs.Prelude.{◌≡◌};
ghost use Rattle.model.specs.Calls.{back_answer};

use entry::Stored;
use words::{Cause, Origin, Refusal};

// Row number r is the base row or the added entry that stands there.
// It takes (c, m, layer) as they are lent: they make no Stored before the form check.
pub fn back(c: usize, n: usize, m: usize, layer: &[u64], r: usize) -> Result<Origin, Refusal>
    ensures { result ≡ back_answer c n m layer.now r }
{
    let rows = form::check_layer(c, n, m, layer)?;
    if rows <= r {
        return words::refused(Cause::NoSuchRow, 0);
    }
    let stored = Stored {
        c,
        m,
        numbers: layer,
    };
    Ok(mark::origin_of(&stored, n, r))
}
