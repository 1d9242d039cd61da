// Splices entered into a layer's slice: entries replaced by one entry or by none, at one place or at two, what stands behind
// them moved once.
#![tactic(auto)]

ghost use Rattle.std.specs.Prelude.{◌≡◌, length};
ghost use Rattle.model.specs.Raw.{Held};
ghost use Rattle.splice.specs.Splice.{spliced_two, BothWithin, count_two, room_answer, if_done};

use slide::Part;
use words::{Cause, Entry, Refusal};

// A splice: where it begins (entry number i), how many entries go, and the entry that comes, if one does.
#[derive(Clone, Copy)]
pub struct Splice {
    pub i: usize,
    pub gone: usize,
    pub comes: Option<Entry>,
}

// Enters two splices into a layer of m entries, the second behind the first, where the slice has room for the result:
// the entries between them and those behind both are moved once each. Answers refusal 9, or how many entries there are
// then.
// (c, m, layer) stand apart: a Stored is read, and this layer has other entries afterwards.
pub fn enter_two(
    c: usize,
    m: usize,
    p: Splice,
    q: Splice,
    layer: &mut [u64],
) -> Result<usize, Refusal>
    requires { Held c m layer.old × BothWithin m p q }
    ensures { let L = layer.old in (result ≡ room_answer c (length L) (count_two m p q))
        × (layer.new ≡ if_done result (spliced_two c m p q L) L) }
{
    let comes = usize::from(p.comes.is_some());
    let comes2 = usize::from(q.comes.is_some());
    let count = m + (comes + comes2) - (p.gone + q.gone);
    if store::room_of(c, layer.len()) < count {
        return words::refused(Cause::NoRoom, 0);
    }
    let w = c + 2;
    let at = p.i * w;
    let from = (p.i + p.gone) * w;
    let end = q.i * w;
    let to = at + comes * w;
    let at2 = to + (end - from);
    let from2 = (q.i + q.gone) * w;
    let last = m * w;
    let to2 = at2 + comes2 * w;
    let between = Part { from, end, to };
    let behind = Part {
        from: from2,
        end: last,
        to: to2,
    };
    slide::two(between, behind, layer);
    slide::clear_behind(count * w, last, layer);
    store::store(c, p.comes, at, layer);
    store::store(c, q.comes, at2, layer);
    Ok(count)
}
