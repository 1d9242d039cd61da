// Refusals 1 to 4 of two layers over one base.
#![tactic(auto)]

ghost use Rattle.std.specs.Prelude.{◌≡◌, length, Ok, Err};
ghost use Rattle.model.specs.Refusals.{first_met};
ghost use Rattle.pair.specs.Pair.{pair_form, pair_rows, pair_total};

use entry::Stored;
use words::{Cause, Refusal};

// Refusals 1 and 2. The result is the rows after X and the rows after Y, together.
// It takes both layers as they are lent: they make no Stored before the form checks.
fn both_formed(
    c: usize,
    n: usize,
    mx: usize,
    x: &[u64],
    my: usize,
    y: &[u64],
) -> Result<usize, Refusal>
    ensures { let X = x.now in let Y = y.now in
        result ≡ first_met Err (pair_form c n mx X my Y) (Ok (pair_total c n mx X my Y)) }
{
    if !(form::args_ok(c, n, mx, x.len()) & form::args_ok(c, n, my, y.len())) {
        return words::refused(Cause::BadArguments, 0);
    }
    let mine = form::check(c, n, mx, x)?;
    match form::check(c, n, my, y) {
        Ok(theirs) => Ok(mine + theirs),
        Err(r) => words::refused(r.cause, 1000 + r.place),
    }
}

// Refusals 1 to 4. The result is the same.
pub fn both_ready(
    c: usize,
    keys: &[u64],
    mx: usize,
    x: &[u64],
    my: usize,
    y: &[u64],
) -> Result<usize, Refusal>
    ensures { let K = keys.now in let X = x.now in let Y = y.now in
        result ≡ first_met Err (pair_rows c K mx X my Y) (Ok (pair_total c (length K) mx X my Y)) }
{
    let rows = both_formed(c, keys.len(), mx, x, my, y)?;
    if !keys::ascend(keys) {
        return words::refused(Cause::KeysUnordered, 0);
    }
    let x = Stored {
        c,
        m: mx,
        numbers: x,
    };
    let mine = fit::fit_place(&x, keys);
    if mine < mx {
        return words::refused(Cause::BadFit, mine);
    }
    let y = Stored {
        c,
        m: my,
        numbers: y,
    };
    let theirs = fit::fit_place(&y, keys);
    if theirs < my {
        return words::refused(Cause::BadFit, 1000 + theirs);
    }
    Ok(rows)
}
