// An edit entered into a layer's slice: one splice, two, or one value set.
#![tactic(auto)]

ghost use Rattle.std.specs.Prelude.{◌≡◌, length};
ghost use Rattle.model.specs.Raw.{Held};
ghost use Rattle.splice.specs.Splice.{room_answer, if_done};
ghost use Rattle.enter.specs.declared.Move.TheVariants.{Number as number};
ghost use Rattle.enter.specs.Move.{none_at, in_key_order, Within, entered, count_after};

use splice::Splice;
use words::Refusal;

// Value j of entry number i, which is to become v.
#[derive(Clone, Copy)]
pub struct Value {
    pub i: usize,
    pub j: usize,
    pub v: u64,
}

// What an edit does to a layer's slice: one splice, two, the second behind the first, or one value set.
#[derive(Clone, Copy)]
pub enum Move {
    Entries(Splice),
    Both(Splice, Splice),
    Number(Value),
}

// No splice, behind m entries.
fn none(m: usize) -> Splice
    ensures { result ≡ none_at m }
{
    Splice {
        i: m,
        gone: 0,
        comes: None,
    }
}

// The splice by which a row goes and the one by which it comes, which stands in front if the row's new number is the lower.
pub fn in_key_order(lower: bool, out: Splice, into: Splice) -> Move
    ensures { result ≡ in_key_order lower out into }
{
    if lower {
        Move::Both(into, out)
    } else {
        Move::Both(out, into)
    }
}

// Sets one value, which no room is needed for.
pub fn set_value(c: usize, m: usize, x: Value, layer: &mut [u64])
    requires { Held c m layer.old × Within c m (number x) }
    ensures { layer.new ≡ entered c m (number x) layer.old }
{
    let at = x.i * (c + 2);
    let own = at + (2 + x.j);
    layer[own] = x.v;
}

// Enters a move into a layer of m entries, where the slice has room for the result. Answers refusal 9, or how many entries
// there are then.
// (c, m, layer) stand apart: a Stored is read, and this layer has other entries afterwards.
// Inlined: called, it was handed a move of two splices through memory, and an edit took nearly twice the stack.
#[inline(always)]
pub fn enter(c: usize, m: usize, x: Move, layer: &mut [u64]) -> Result<usize, Refusal>
    requires { Held c m layer.old × Within c m x }
    ensures { let L = layer.old in (result ≡ room_answer c (length L) (count_after m x))
        × (layer.new ≡ if_done result (entered c m x L) L) }
{
    match x {
        Move::Entries(p) => splice::enter_two(c, m, p, none(m), layer),
        Move::Both(p, q) => splice::enter_two(c, m, p, q, layer),
        Move::Number(value) => {
            set_value(c, m, value, layer);
            Ok(m)
        }
    }
}
