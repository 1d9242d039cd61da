// Parts of a slice moved, each number once, and zeros where they no longer reach.
#![tactic(auto)]

ghost use Rattle.std.specs.Prelude.{◌≡◌, ◌+◌, ◌-◌, ◌≤◌, length, replicate};
ghost use Rattle.std.proofs.Math.Seq.{paste};
ghost use Rattle.slide.specs.Parts.{moved, Behind};

// A part: the numbers from `from` up to `end`, which are to start at `to`.
#[derive(Clone, Copy)]
pub struct Part {
    pub from: usize,
    pub end: usize,
    pub to: usize,
}

// Moves a part; one that stands where it is to start stays untouched.
fn one(p: Part, layer: &mut [u64])
    requires { (p.from ≤ p.end) × (p.end ≤ length layer.old) × (p.to + (p.end - p.from) ≤ length layer.old) }
    ensures { layer.new ≡ moved p layer.old layer.old }
{
    let from = p.from;
    let end = p.end;
    let to = p.to;
    if from < to {
        run::shift_up(from, end, to - from, layer);
        return;
    }
    if to < from {
        run::shift_down(from, end, from - to, layer);
    }
}

// Moves two parts, of which the second stands behind the first and is to start behind it: first the one that would be
// written over.
pub fn two(p: Part, q: Part, layer: &mut [u64])
    requires { Behind p q (length layer.old) }
    ensures { let L = layer.old in layer.new ≡ moved p L (moved q L L) }
{
    if p.from < p.to {
        one(q, layer);
        one(p, layer);
        return;
    }
    one(p, layer);
    one(q, layer);
}

// Zeros from `stop` up to `end`, if what was written stops before that.
pub fn clear_behind(stop: usize, end: usize, layer: &mut [u64])
    requires { (stop ≤ length layer.old) × (end ≤ length layer.old) }
    ensures { layer.new ≡ paste layer.old stop (replicate (end - stop) 0) (end - stop) }
{
    if stop < end {
        run::clear(stop, end, layer);
    }
}
