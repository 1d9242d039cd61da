// One walk along two layers: the lowest entry of X in conflict with Y, and X's new positions.
#![tactic(auto)]

ghost use Rattle.std.specs.Prelude.{◌≡◌, ◌≤◌, ◌<◌, length, drop};
ghost use Rattle.model.specs.Conflict.{met, conflict_place};
ghost use Rattle.head.specs.Head.{seen};
ghost use Rattle.entry.specs.Look.{edits};
ghost use Rattle.walk.specs.Walk.{outset, past, Marks, Early, Parted, InOrder, Movable, Positions, rule_ahead};

use entry::Stored;
use head::Head;
use words::Entry;

// A place in a layer: entry number i, and the adds and strikes before it.
#[derive(Clone, Copy)]
pub struct Mark {
    pub i: usize,
    pub adds: usize,
    pub strikes: usize,
}

impl Mark {
    // The first entry.
    fn outset() -> Self
        ensures { result ≡ outset }
    {
        Self {
            i: 0,
            adds: 0,
            strikes: 0,
        }
    }

    // The entry after this one, which is of this kind.
    fn past(self, kind: u64) -> Self
        requires { (self.i < 512) × (self.adds ≤ 512) × (self.strikes ≤ 512) }
        ensures { result ≡ past kind self }
    {
        Self {
            i: self.i + 1,
            adds: self.adds + usize::from(kind == Entry::ADD),
            strikes: self.strikes + usize::from(kind == Entry::STRIKE),
        }
    }
}

// Moves the mark on past the entries of the layer that stand before one with the head e.
fn advance(layer: &Stored, from: Mark, e: Head) -> Mark
    requires { let L = edits layer.now in InOrder L × Marks L from × Early L from.i (seen e) }
    ensures { let L = edits layer.now in Marks L result × Parted L result.i (seen e) }
{
    let mut k = from;
    for i in from.i..layer.m {
        let d = layer.head(i);
        if !head::stands_before(d, e) {
            return k;
        }
        k = k.past(d.kind);
    }
    k
}

// An entry with the head e meets a rule with entry number i.
fn clashes(layer: &Stored, i: usize, e: Head) -> bool
    ensures { result ≡ met (rule_ahead (seen e) (drop i (edits layer.now))) }
{
    i < layer.m && head::rule_met(e, layer.head(i)).is_some()
}

// The lowest entry of X that is in conflict with one of Y, or their number. The new positions of those before it go
// into `to`.
pub fn first_clash(x: &Stored, y: &Stored, to: &mut [u64; 512]) -> usize
    requires { Movable x.now y.now × (x.now.m ≤ length to.old) }
    ensures { let Y = edits y.now in (result ≡ conflict_place (edits x.now) Y)
        × Positions x.now Y result to.new }
{
    let mut mark = Mark::outset();
    for i in 0..x.m {
        let e = x.head(i);
        mark = advance(y, mark, e);
        if clashes(y, mark.i, e) {
            return i;
        }
        to[i] = e.pos + mark.adds as u64 - mark.strikes as u64;
    }
    x.m
}
