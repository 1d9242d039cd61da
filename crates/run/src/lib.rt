// Runs of numbers: copied between two slices, moved up or down within one, cleared.
#![tactic(auto)]

ghost use Rattle.std.specs.Prelude.{◌≡◌, ◌+◌, ◌-◌, ◌≤◌, length, drop, replicate};
ghost use Rattle.std.proofs.Math.Seq.{paste};

// Copies src over a slice of its own length, number by number. The library's `copy_from_slice` is the C library's memmove here,
// which a driver's archive would need, and which is called for every gap between two entries, the empty ones too.
fn copy_same(src: &[u64], dst: &mut [u64])
    requires { length src.now ≡ length dst.old }
    ensures { dst.new ≡ src.now }
{
    for k in 0..src.len() {
        dst[k] = src[k];
    }
}

// Copies all of src into dst from index at on, and returns the index after the last number written.
pub fn copy_in(src: &[u64], dst: &mut [u64], at: usize) -> usize
    requires { at + length src.now ≤ length dst.old }
    ensures { (result ≡ at + length src.now)
        × (dst.new ≡ paste dst.old at src.now (length src.now)) }
{
    let end = at + src.len();
    copy_same(src, &mut dst[at..end]);
    end
}

// Moves the numbers from a up to b by w places up, the last first. The library's `copy_within` is the C library's memmove,
// which stores numbers twice where its vectors overlap: in slow memory each number is stored once.
pub fn shift_up(a: usize, b: usize, w: usize, layer: &mut [u64])
    requires { (a ≤ b) × (b + w ≤ length layer.old) }
    ensures { layer.new ≡ paste layer.old (a + w) (drop a layer.old) (b - a) }
{
    for k in (a..b).rev() {
        layer[k + w] = layer[k];
    }
}

// Moves the numbers from a up to b by w places down, the first first.
pub fn shift_down(a: usize, b: usize, w: usize, layer: &mut [u64])
    requires { (w ≤ a) × (a ≤ b) × (b ≤ length layer.old) }
    ensures { layer.new ≡ paste layer.old (a - w) (drop a layer.old) (b - a) }
{
    for k in a..b {
        layer[k - w] = layer[k];
    }
}

// Zeros from a up to b.
pub fn clear(a: usize, b: usize, layer: &mut [u64])
    requires { (a ≤ b) × (b ≤ length layer.old) }
    ensures { layer.new ≡ paste layer.old a (replicate (b - a) 0) (b - a) }
{
    layer[a..b].fill(0);
}
