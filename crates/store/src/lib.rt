// An entry stored in a layer's slice, and how many entries a slice has room for.
#![tactic(auto)]

ghost use Rattle.std.specs.Prelude.{◌≡◌, ◌+◌, ◌≤◌, length};
ghost use Rattle.std.proofs.Math.Seq.{paste};
ghost use Rattle.model.specs.Raw.{room};
ghost use Rattle.store.specs.Numbers.{coming};

use words::Entry;

// The room of a slice of len numbers: the smaller of 512 and the whole entries that it can hold.
pub fn room_of(c: usize, len: usize) -> usize
    requires { c ≤ 8 }
    ensures { result ≡ room c len }
{
    let whole = len / (c + 2);
    if words::MOST_ENTRIES < whole {
        return words::MOST_ENTRIES;
    }
    whole
}

// Writes what comes, from `at` on: an entry, or nothing.
pub fn store(c: usize, comes: Option<Entry>, at: usize, layer: &mut [u64])
    requires { (c ≤ 8) × (at + length (coming c comes) ≤ length layer.old) }
    ensures { let new = coming c comes in
        layer.new ≡ paste layer.old at new (length new) }
{
    if let Some(e) = comes {
        layer[at] = e.pos;
        layer[at + 1] = e.kind;
        pairs::copy_pairs(0, c, &e.vals, layer, at + 2);
    }
}
