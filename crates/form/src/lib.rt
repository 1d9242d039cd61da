// The form check of a layer, with the place of the least entry at fault.
#![tactic(auto)]

ghost use Rattle.std.specs.Prelude.{◌≡◌};
ghost use Rattle.model.specs.Form.{args_ok};
ghost use Rattle.model.specs.Calls.{form_answer};
ghost use Rattle.scan.specs.Scan.{Judged, judgement};

use entry::Stored;
use words::{Cause, MOST_COLUMNS, MOST_ENTRIES, MOST_ROWS, Refusal};

// The arguments pass refusal 1: c columns, n rows, m entries in a slice of len numbers.
pub fn args_ok(c: usize, n: usize, m: usize, len: usize) -> bool
    ensures { result ≡ args_ok c n m len }
{
    if MOST_COLUMNS < c {
        return false;
    }
    if MOST_ENTRIES < m {
        return false;
    }
    (1 <= c) & ((n <= MOST_ROWS) & (m * (c + 2) <= len))
}

// What the pass over the entries says of form: the first at fault, else the row total.
pub fn judge(n: usize, m: usize, s: scan::Scan) -> Result<usize, Refusal>
    requires { Judged n m s.place s.adds s.strikes }
    ensures { result ≡ judgement n m s.place s.adds s.strikes }
{
    let place = s.place;
    if place < m {
        return words::refused(Cause::BadForm, place);
    }
    let shown = n + s.adds;
    let most = MOST_ROWS + s.strikes;
    if most < shown {
        return words::refused(Cause::BadForm, m);
    }
    Ok(shown - s.strikes)
}

// The check behind every call: arguments and form. The result is the number of rows after the layer.
// It takes (c, m, layer) as they are lent: they make no Stored before the form check.
pub fn check(c: usize, n: usize, m: usize, layer: &[u64]) -> Result<usize, Refusal>
    ensures { result ≡ form_answer c n m layer.now }
{
    if !args_ok(c, n, m, layer.len()) {
        return words::refused(Cause::BadArguments, 0);
    }
    let stored = Stored {
        c,
        m,
        numbers: layer,
    };
    judge(n, m, scan::scan_layer(n, &stored))
}

// The same check, for calls that are made of empty layers too: such a layer has only its arguments to check, which spares it the pass over entries.
pub fn check_layer(c: usize, n: usize, m: usize, layer: &[u64]) -> Result<usize, Refusal>
    ensures { result ≡ form_answer c n m layer.now }
{
    if m == 0 {
        if args_ok(c, n, m, layer.len()) {
            return Ok(n);
        }
        return words::refused(Cause::BadArguments, 0);
    }
    check(c, n, m, layer)
}
