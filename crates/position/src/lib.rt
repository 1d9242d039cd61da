// Shifts and row numbers.
#![tactic(auto)]

ghost use Rattle.std.specs.Prelude.{◌≡◌, true, ◌≤◌, pos, nat_abs, ◌+ℤ◌};
ghost use Rattle.std.specs.Int.Signed.{non_neg};
ghost use Rattle.model.specs.Calls.{shift_answer, row_answer};

use entry::Stored;
use words::{Cause, Refusal};

// Position s moved by d, which takes it to no negative row.
fn shifted(s: usize, d: i64) -> usize
    requires { (s ≤ 4096) × (nat_abs d ≤ 512) × (non_neg (pos s +ℤ d) ≡ true) }
    ensures { pos result ≡ pos s +ℤ d }
{
    ((s as i64) + d) as usize
}

// The shift at base position s, 0 to n: adds up to and including s, less strikes before s.
// It takes (c, m, layer) as they are lent: they make no Stored before the form check.
pub fn shift(c: usize, n: usize, m: usize, layer: &[u64], s: usize) -> Result<i64, Refusal>
    ensures { result ≡ shift_answer c n m layer.now s }
{
    if n < s {
        return words::refused(Cause::BadArguments, 0);
    }
    form::check_layer(c, n, m, layer)?;
    let stored = Stored {
        c,
        m,
        numbers: layer,
    };
    Ok(tally::shift_at(&stored, s))
}

// The row number of base position s, 0 to n, is s and its shift, which is never a negative row: for a struck row that of
// the next shown row, or the row count.
pub fn row(c: usize, n: usize, m: usize, layer: &[u64], s: usize) -> Result<usize, Refusal>
    ensures { result ≡ row_answer c n m layer.now s }
{
    let d = shift(c, n, m, layer, s)?;
    Ok(shifted(s, d))
}
