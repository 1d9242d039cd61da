// The shift at a base position as a count over a layer's entries.
#![tactic(auto)]

ghost use Rattle.std.specs.Prelude.{◌≡◌, ◌+◌, ◌≤◌, ◌<◌};
ghost use Rattle.std.proofs.Math.IntN.{sub_ℕ};
ghost use Rattle.order.specs.Lists.{one, count};
ghost use Rattle.entry.specs.Look.{edits};
ghost use Rattle.model.specs.Position.{add_up_to, strike_before, shift};
ghost use Rattle.tally.specs.Seen.{add_seen, strike_seen};

use entry::{Sight, Stored};

// By how much a passes b, below zero where it does not.
fn less(a: usize, b: usize) -> i64
    requires { (a ≤ 512) × (b ≤ 512) }
    ensures { result ≡ sub_ℕ a b }
{
    (a as i64) - (b as i64)
}

// The adds at positions up to and including s, and the strikes at positions before s.
#[derive(Clone, Copy)]
struct Tally {
    adds: usize,
    strikes: usize,
}

impl Tally {
    // One entry more.
    fn with(self, f: Sight, s: u64) -> Self
        requires { (self.adds < 512) × (self.strikes < 512) }
        ensures { (result.adds ≡ self.adds + one (add_seen s f))
            × (result.strikes ≡ self.strikes + one (strike_seen s f)) }
    {
        match f {
            Sight::Add(p, _) => Self {
                adds: self.adds + usize::from(p <= s),
                strikes: self.strikes,
            },
            Sight::Strike(p, _) => Self {
                adds: self.adds,
                strikes: self.strikes + usize::from(p < s),
            },
            Sight::Change(_, _, _) => self,
        }
    }
}

// The pass over the entries that counts them.
fn counted(layer: &Stored, s: usize) -> Tally
    ensures { let L = edits layer.now in
        (result.adds ≡ count (add_up_to s) L) × (result.strikes ≡ count (strike_before s) L) }
{
    let to = s as u64;
    let mut w = Tally {
        adds: 0,
        strikes: 0,
    };
    for i in 0..layer.m {
        w = w.with(layer.sight(i), to);
    }
    w
}

// The shift at base position s: the adds up to and including s, less the strikes before s.
pub fn shift_at(layer: &Stored, s: usize) -> i64
    ensures { result ≡ shift (edits layer.now) s }
{
    let w = counted(layer, s);
    less(w.adds, w.strikes)
}
