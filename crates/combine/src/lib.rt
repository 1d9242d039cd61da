// Two layers combined into one, in a third slice: checked first, counted where they may not fit, then written in one walk.
#![tactic(auto)]

ghost use Rattle.std.specs.Prelude.{◌≡◌, ltb, length};
ghost use Rattle.model.specs.Raw.{layer_of};
ghost use Rattle.model.specs.Calls.{combine_answer, combine_slice};
ghost use Rattle.woven.specs.Woven.{woven_layer};
ghost use Rattle.over.specs.Over.{over};
ghost use Rattle.turn.specs.Turn.{Both};

use over::Stack;
use words::{Cause, Refusal};

// Both layers make more entries than so many: counted only where they have more together. The slice stays as it is.
fn more_than(room: usize, s: &Stack, names: &[u64], out: &mut [u64]) -> bool
    requires { let S = s.now in let K = S.keys.now in
        Both S.c K (over S.c K S.mr S.r.now) S.mr S.r.now S.mw S.w.now names.now }
    ensures { let S = s.now in let K = S.keys.now in
        (result ≡ ltb room (length (woven_layer K (over S.c K S.mr S.r.now) (layer_of S.c S.mr S.r.now)
        (layer_of S.c S.mw S.w.now))))
        × (out.new ≡ out.old) }
{
    if s.mr + s.mw <= room {
        return false;
    }
    room < weave::weave(false, s, names, out)
}

// Combines the lower layer R over the base keys and the upper layer W over what R shows into one layer over the base,
// in the third slice.
// It takes both layers as they are lent: they make no Stored before the form checks.
pub fn combine(
    c: usize,
    keys: &[u64],
    mr: usize,
    r: &[u64],
    mw: usize,
    w: &[u64],
    out: &mut [u64],
) -> Result<usize, Refusal>
    ensures { let K = keys.now in let R = r.now in let W = w.now in
        (result ≡ combine_answer c K mr R mw W (length out.old))
        × (out.new ≡ combine_slice c K mr R mw W out.old) }
{
    let mut names: [u64; 512] = [0; 512];
    stacked::check_both(c, keys, mr, r, mw, w, &mut names)?;
    let s = Stack {
        c,
        keys,
        mr,
        r,
        mw,
        w,
    };
    let room = store::room_of(c, out.len());
    if more_than(room, &s, &names, out) {
        return words::refused(Cause::NoRoom, 0);
    }
    Ok(weave::weave(true, &s, &names, out))
}
