// The numbers of a column, as a layer shows them, written to a buffer.
#![tactic(auto)]

ghost use Rattle.std.specs.Prelude.{◌≡◌, [], ◌∷◌, ◌++◌, ◌+◌, ◌≤◌, ◌<◌, length, drop};
ghost use Rattle.std.proofs.Math.Seq.{slice};
ghost use Rattle.model.specs.Read.{read_column};
ghost use Rattle.entry.specs.Look.{edits};
ghost use Rattle.column.specs.Runs.{Pasted, Readable};

use entry::{Sight, Stored};

// Shows the base rows from s up to p: writes them to the buffer from o on, and returns the index after the last.
fn show_rows(base: &[u64], s: usize, p: usize, out: &mut [u64], o: usize) -> usize
    requires { (s ≤ p) × (p ≤ length base.now) × (o + length (slice s p base.now) ≤ length out.old) }
    ensures { Pasted (slice s p base.now) out.old o result out.new }
{
    run::copy_in(&base[s..p], out, o)
}

// Shows the base rows from s up to p and then the number v.
fn show_rows_and(base: &[u64], s: usize, p: usize, v: u64, out: &mut [u64], o: usize) -> usize
    requires { (s ≤ p) × (p ≤ length base.now) × (o + length (slice s p base.now) < length out.old) }
    ensures { Pasted (slice s p base.now ++ (v ∷ [])) out.old o result out.new }
{
    let end = show_rows(base, s, p, out, o);
    out[end] = v;
    end + 1
}

// Writes column j, as the layer shows it, to the front of the buffer, and returns how many rows there are.
pub fn read_part(layer: &Stored, base: &[u64], j: usize, out: &mut [u64]) -> usize
    requires { Readable layer.now base.now j (length out.old) }
    ensures { let shown = read_column j base.now (edits layer.now) in
        (result ≡ length shown) × (out.new ≡ shown ++ drop (length shown) out.old) }
{
    let mut s: usize = 0;
    let mut o: usize = 0;
    for k in 0..layer.m {
        match layer.sight(k) {
            Sight::Add(p, _) => {
                let p = p as usize;
                let own = layer.value(k, j);
                o = show_rows_and(base, s, p, own, out, o);
                s = p;
            }
            Sight::Strike(p, _) => {
                let p = p as usize;
                o = show_rows(base, s, p, out, o);
                s = p + 1; // past the struck row
            }
            Sight::Change(p, i, v) => {
                let p = p as usize;
                if i == j as u64 {
                    o = show_rows_and(base, s, p, v, out, o);
                    s = p + 1; // past the changed row
                }
            }
        }
    }
    show_rows(base, s, base.len(), out, o)
}
