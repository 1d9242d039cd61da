// The fit check of a layer: does it keep form and fit its key column, with the place of the least entry at fault.
#![tactic(auto)]

ghost use Rattle.std.specs.Prelude.{◌≡◌, length};
ghost use Rattle.model.specs.Fit.{fit_place};
ghost use Rattle.model.specs.Calls.{ready_answer, fit_answer};
ghost use Rattle.entry.specs.Look.{edits};
ghost use Rattle.form.specs.InForm.{InForm};

use entry::Stored;
use head::Head;
use words::{Cause, Refusal};

// The place of the least entry of a layer in form that does not fit the keys, or m.
pub fn fit_place(layer: &Stored, keys: &[u64]) -> usize
    requires { let l = layer.now in InForm l.c (length keys.now) l.m l.numbers.now }
    ensures { result ≡ fit_place keys.now (edits layer.now) }
{
    let mut before = Head {
        pos: 0,
        kind: 0,
        first: 0,
    };
    for i in 0..layer.m {
        if !suit::fits_after(layer, i, keys, before) {
            return i;
        }
        before = layer.head(i);
    }
    layer.m
}

// Refusals 1 to 4 of one layer, one after the other: arguments, form, keys, fit. It walks the layer for form, then for fit.
// It takes (c, m, layer) as they are lent: they make no Stored before the form check.
fn in_turn(c: usize, m: usize, layer: &[u64], keys: &[u64]) -> Result<usize, Refusal>
    ensures { result ≡ ready_answer c m layer.now keys.now }
{
    let rows = form::check(c, keys.len(), m, layer)?;
    if !keys::ascend(keys) {
        return words::refused(Cause::KeysUnordered, 0);
    }
    let stored = Stored {
        c,
        m,
        numbers: layer,
    };
    let place = fit_place(&stored, keys);
    if place < m {
        return words::refused(Cause::BadFit, place);
    }
    Ok(rows)
}

// Refusals 1 to 4 of one layer: arguments, form, keys, fit. The result is the number of rows after the layer.
// Layers stand in slow memory, so an accepted one is walked once, for form and fit together.
// One with an entry at fault is walked again, since form further on and the keys are refused before fit.
pub fn ready(c: usize, m: usize, layer: &[u64], keys: &[u64]) -> Result<usize, Refusal>
    ensures { result ≡ ready_answer c m layer.now keys.now }
{
    let n = keys.len();
    if !form::args_ok(c, n, m, layer.len()) {
        return words::refused(Cause::BadArguments, 0);
    }
    let stored = Stored {
        c,
        m,
        numbers: layer,
    };
    let seen = vet::form_and_fit(&stored, keys);
    if seen.place < m {
        return in_turn(c, m, layer, keys);
    }
    let rows = form::judge(n, m, seen)?;
    if !keys::ascend(keys) {
        return words::refused(Cause::KeysUnordered, 0);
    }
    Ok(rows)
}

// Whether a layer keeps form and fits the key column.
pub fn fit(c: usize, m: usize, layer: &[u64], keys: &[u64]) -> Result<usize, Refusal>
    ensures { result ≡ fit_answer c m layer.now keys.now }
{
    ready(c, m, layer, keys)?;
    Ok(0)
}
