// Add: the splice of a new row, planned and entered.
#![tactic(auto)]

ghost use Rattle.std.specs.Prelude.{◌≡◌};
ghost use Rattle.model.specs.Calls.{add_answer, add_slice};

use enter::Move;
use entry::Stored;
use words::{Cause, MOST_ROWS, Refusal};

// Add a row: an add entry at its position, in key order among the adds there.
// It takes (c, m, layer) as they are lent: they make no Stored before the form check.
pub fn add(
    c: usize,
    m: usize,
    layer: &mut [u64],
    keys: &[u64],
    row: &[u64],
) -> Result<usize, Refusal>
    ensures { let L = layer.old in let K = keys.now in let R = row.now in
        (result ≡ add_answer c m L K R) × (layer.new ≡ add_slice c m L K R) }
{
    if row.len() != c {
        return words::refused(Cause::BadArguments, 0);
    }
    let rows = fit::ready(c, m, layer, keys)?;
    let stored = Stored {
        c,
        m,
        numbers: layer,
    };
    let p = plan::add(&stored, keys, row);
    if p.shown {
        return words::refused(Cause::KeyShown, 0);
    }
    if MOST_ROWS <= rows {
        if store::room_of(c, layer.len()) < m + 1 {
            return words::refused(Cause::NoRoom, 0);
        }
        return words::refused(Cause::TooManyRows, 0);
    }
    enter::enter(c, m, Move::Entries(p.splice), layer)
}
