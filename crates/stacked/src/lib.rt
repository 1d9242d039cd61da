// Refusals 1 to 4 of two layers, one over what the other shows.
#![tactic(auto)]

ghost use Rattle.std.specs.Prelude.{◌≡◌, ◌≤◌, length};
ghost use Rattle.model.specs.Layer.{rows_after};
ghost use Rattle.model.specs.Raw.{layer_of};
ghost use Rattle.stacked.specs.Checked.{fits_answer, both_answer, Forms, NamedIf};

use over::Stack;
use words::{Cause, Refusal};

// Refusals 3 and 4 of two layers in form: keys, fit, the upper one to the keys of the rows that the lower leaves. Where none
// is met, the upper layer's entries concern the keys `names`.
fn fit_both(s: &Stack, rows: usize, names: &mut [u64]) -> Result<usize, Refusal>
    requires { let S = s.now in let K = S.keys.now in let R = S.r.now in
        Forms S.c K S.mr R S.mw S.w.now × (rows ≡ rows_after (length K) (layer_of S.c S.mr R))
        × (512 ≤ length names.old) }
    ensures { let S = s.now in let K = S.keys.now in let R = S.r.now in let W = S.w.now in
        (result ≡ fits_answer S.c K S.mr R S.mw W) × NamedIf result S.c K S.mr R S.mw W names.new }
{
    if !keys::ascend(s.keys) {
        return words::refused(Cause::KeysUnordered, 0);
    }
    let p = fit::fit_place(&s.lower(), s.keys);
    if p < s.mr {
        return words::refused(Cause::BadFit, p);
    }
    let q = over::fit_over(s, rows, names);
    if q < s.mw {
        return words::refused(Cause::BadFit, 1000 + q);
    }
    Ok(0)
}

// All four.
// It takes both layers as they are lent: they make no Stored before the form checks.
pub fn check_both(
    c: usize,
    keys: &[u64],
    mr: usize,
    r: &[u64],
    mw: usize,
    w: &[u64],
    names: &mut [u64],
) -> Result<usize, Refusal>
    requires { 512 ≤ length names.old }
    ensures { let K = keys.now in let R = r.now in let W = w.now in
        (result ≡ both_answer c K mr R mw W) × NamedIf result c K mr R mw W names.new }
{
    let n = keys.len();
    if !(form::args_ok(c, n, mr, r.len()) & form::args_ok(c, n, mw, w.len())) {
        return words::refused(Cause::BadArguments, 0);
    }
    let rows = form::check(c, n, mr, r)?;
    match form::check(c, rows, mw, w) {
        Ok(_) => {
            let s = Stack {
                c,
                keys,
                mr,
                r,
                mw,
                w,
            };
            fit_both(&s, rows, names)
        }
        Err(y) => words::refused(y.cause, 1000 + y.place),
    }
}
