// One layer moved past another over the same base: the refusals in their order, then the new positions.
#![tactic(auto)]

ghost use Rattle.std.specs.Prelude.{◌≡◌};
ghost use Rattle.model.specs.Calls.{move_answer, move_slice};

use entry::Stored;
use words::{Cause, MOST_ROWS, Refusal};

// Moves X past Y: only X's positions change.
// It takes both layers as they are lent: they make no Stored before the form checks.
pub fn move_past(
    c: usize,
    keys: &[u64],
    mx: usize,
    x: &mut [u64],
    my: usize,
    y: &[u64],
) -> Result<usize, Refusal>
    ensures { let K = keys.now in let X = x.old in let Y = y.now in
        (result ≡ move_answer c K mx X my Y) × (x.new ≡ move_slice c K mx X my Y) }
{
    let rows = pair::both_ready(c, keys, mx, x, my, y)?;
    let mut to: [u64; 512] = [0; 512];
    let mine = Stored {
        c,
        m: mx,
        numbers: x,
    };
    let theirs = Stored {
        c,
        m: my,
        numbers: y,
    };
    let place = walk::first_clash(&mine, &theirs, &mut to);
    if place < mx {
        return words::refused(Cause::InConflict, place);
    }
    if MOST_ROWS + keys.len() < rows {
        return words::refused(Cause::TooManyRows, 0);
    }
    relocate::put_positions(c, mx, x, &to);
    Ok(mx)
}
