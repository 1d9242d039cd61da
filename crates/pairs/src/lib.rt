// Numbers copied by pairs, from one slice into another.
#![tactic(auto)]

ghost use Rattle.std.specs.Prelude.{◌≡◌, ◌+◌, ◌-◌, ◌≤◌, length, drop};
ghost use Rattle.std.proofs.Math.Seq.{paste};

// Copies the numbers from `at` up to the end over those from o on, two a turn: both are read before either is written, so
// that they move as one. By pairs it stays a loop: a copy of single numbers becomes a call of the C library's memcpy, which
// stores numbers twice where its vectors overlap, and in slow memory each store counts.
pub fn copy_pairs(at: usize, end: usize, layer: &[u64], out: &mut [u64], o: usize)
    requires { (at ≤ end) × (end ≤ length layer.now) × (o + (end - at) ≤ length out.old) }
    ensures { out.new ≡ paste out.old o (drop at layer.now) (end - at) }
{
    let mut a = at;
    let mut b = o;
    while a + 1 < end {
        let x = layer[a];
        let y = layer[a + 1];
        out[b] = x;
        out[b + 1] = y;
        a += 2;
        b += 2;
    }
    if a < end {
        out[b] = layer[a];
    }
}
