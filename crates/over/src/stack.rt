// Two layers over one key column.
ghost use Rattle.model.specs.Raw.{Held};

// Two layers of c columns, one above the other: the lower over a key column, the upper over what the lower shows.
#[derive(Clone, Copy)]
pub struct Stack<'a> {
    pub c: usize,
    pub keys: &'a [u64],
    pub mr: usize,
    pub r: &'a [u64],
    pub mw: usize,
    pub w: &'a [u64],
    ghost lower_held: { Held c mr r.now },
    ghost upper_held: { Held c mw w.now },
}
