// A view of a column that was read through a layer: the base column itself, or the filled front of the work buffer.
#![tactic(auto)]

ghost use Rattle.std.specs.Prelude.{◌≡◌, length};
ghost use Rattle.order.specs.Lists.{any};
ghost use Rattle.entry.specs.Look.{edits};
ghost use Rattle.model.specs.Read.{touches};
ghost use Rattle.model.specs.Calls.{view_part};
ghost use Rattle.view.specs.View.{shows, Handed, seen_as, seen_number, seen_value};

use entry::{Sight, Stored};

// What an entry does shows in column j: an add, a strike, a change of column j.
fn shows(j: u64, found: Sight) -> bool
    ensures { result ≡ shows j found }
{
    match found {
        Sight::Add(_, _) => true,
        Sight::Strike(_, _) => true,
        Sight::Change(_, i, _) => j == i,
    }
}

// Whether some entry shows in column j.
fn touched(layer: &Stored, j: usize) -> bool
    ensures { result ≡ any (touches j) (edits layer.now) }
{
    for i in 0..layer.m {
        if shows(j as u64, layer.sight(i)) {
            return true;
        }
    }
    false
}

// What the viewer hands back, without its reference: all numbers of the base column, or so many of the front of the buffer.
#[derive(Clone, Copy)]
pub enum Seen {
    Base(usize),
    Front(usize),
}

// 0 for a part of the base column, 1 for the front of the buffer.
pub fn number(part: Option<Seen>) -> u64
    ensures { result ≡ seen_number part }
{
    match part {
        Some(Seen::Front(_)) => 1,
        _ => 0,
    }
}

// The length of the part, 0 where nothing is seen.
pub fn value(part: Option<Seen>) -> usize
    ensures { result ≡ seen_value part }
{
    match part {
        Some(Seen::Base(k)) => k,
        Some(Seen::Front(k)) => k,
        None => 0,
    }
}

// What the viewer hands back after the read into a buffer of len numbers; nothing where reading is refused.
// It takes (c, m, layer) as they are lent: they make no Stored before the form check.
pub fn view_part(
    c: usize,
    m: usize,
    layer: &[u64],
    base: &[u64],
    j: usize,
    len: usize,
) -> Option<Seen>
    ensures { let B = base.now in
        result ≡ seen_as (length B) (view_part c m layer.now B j len) }
{
    let rows = read::answer(c, m, layer, base, j, len).ok()?;
    let stored = Stored {
        c,
        m,
        numbers: layer,
    };
    if touched(&stored, j) {
        return Some(Seen::Front(rows));
    }
    Some(Seen::Base(base.len()))
}

// After the read: the base column itself where the layer does not show in column j, else the filled front of the buffer.
// Where reading is refused, an empty part of the base column.
pub fn view<'a>(
    c: usize,
    m: usize,
    layer: &[u64],
    base: &'a [u64],
    j: usize,
    out: &'a [u64],
) -> &'a [u64]
    ensures { Handed base.entry out.entry
        (view_part c m layer.now base.now j (length out.now)) result }
{
    let p = view_part(c, m, layer, base, j, out.len());
    match p {
        Some(Seen::Base(_)) => base,
        Some(Seen::Front(rows)) => &out[..rows],
        None => &base[..0],
    }
}
