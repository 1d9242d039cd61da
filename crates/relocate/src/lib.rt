// New positions written over those of a layer's entries.
#![tactic(auto)]

ghost use Rattle.std.specs.Prelude.{◌≡◌, ◌++◌, ◌+◌, ◌*◌, drop};
ghost use Rattle.model.specs.Layer.{Layer};
ghost use Rattle.model.specs.Raw.{Held, layer_of, flat};
ghost use Rattle.model.specs.Move.{move};
ghost use Rattle.walk.specs.Walk.{PositionsIn};
ghost use Rattle.relocate.specs.Zeroed.{Zeroed};

// Writes the positions `to` over those of the layer's entries.
pub fn put_positions(c: usize, m: usize, x: &mut [u64], to: &[u64; 512])
    requires { Held c m x.old × Zeroed c m x.old }
    ensures { (Y : Layer) → PositionsIn c x.old Y m to.now
        → x.new ≡ flat c (move (layer_of c m x.old) Y) ++ drop (m * (c + 2)) x.old }
{
    for i in 0..m {
        x[i * (c + 2)] = to[i];
    }
}
