// A layer written to a file's bytes.
#![tactic(auto)]

ghost use Rattle.std.specs.Prelude.{◌≡◌, [], ◌∷◌, ◌+◌, ◌≤◌, length};
ghost use Rattle.std.proofs.Math.Seq.{paste};
ghost use Rattle.little.specs.Little.{eights};
ghost use Rattle.format.specs.File.{save_answer, save_slice};

use words::{Cause, Refusal};

// Writes a trailer from byte `at` on.
fn put_trailer(c: usize, n: usize, m: usize, reach: usize, at: usize, out: &mut [u8])
    requires { at + 32 ≤ length out.old }
    ensures { out.new ≡ paste out.old at (eights (reach ∷ m ∷ c ∷ n ∷ [])) 32 }
{
    jot::put_number(out, at, reach as u64);
    jot::put_number(out, at + 8, m as u64);
    jot::put_number(out, at + 16, c as u64);
    jot::put_number(out, at + 24, n as u64);
}

// Writes the layer of m entries to the front of out, with no note; it answers the number of bytes.
// It takes (c, m, layer) as they are lent: they make no Stored before the form check.
pub fn save(c: usize, n: usize, m: usize, layer: &[u64], out: &mut [u8]) -> Result<usize, Refusal>
    ensures { let L = layer.now in let O = out.old in
        (result ≡ save_answer c n m L (length O)) × (out.new ≡ save_slice c n m L O) }
{
    form::check_layer(c, n, m, layer)?;
    let k = m * (c + 2);
    let reach = 32 + 8 * k;
    if out.len() < reach {
        return words::refused(Cause::ShortBuffer, 0);
    }
    jot::write_numbers(k, layer, out);
    put_trailer(c, n, m, reach, 8 * k, out);
    Ok(reach)
}
