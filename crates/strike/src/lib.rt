// Strike: the splice of a row that goes, planned and entered.
#![tactic(auto)]

ghost use Rattle.std.specs.Prelude.{◌≡◌};
ghost use Rattle.model.specs.Calls.{strike_answer, strike_slice};

use enter::Move;
use entry::Stored;
use words::{Cause, Refusal};

// Strike row number r: an added row's entry disappears; a base row loses its changes and gains a strike.
// It takes (c, m, layer) as they are lent: they make no Stored before the form check.
pub fn strike(
    c: usize,
    m: usize,
    layer: &mut [u64],
    keys: &[u64],
    r: usize,
) -> Result<usize, Refusal>
    ensures { let L = layer.old in let K = keys.now in
        (result ≡ strike_answer c m L K r) × (layer.new ≡ strike_slice c m L K r) }
{
    let rows = fit::ready(c, m, layer, keys)?;
    if rows <= r {
        return words::refused(Cause::NoSuchRow, 0);
    }
    let stored = Stored {
        c,
        m,
        numbers: layer,
    };
    let p = plan::strike(&stored, keys, r);
    enter::enter(c, m, Move::Entries(p), layer)
}
