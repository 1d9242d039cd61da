// A layer in a slice.
ghost use Rattle.model.specs.Raw.{Held};

// A layer of m entries of c values, as it is stored from the front of a slice.
#[derive(Clone, Copy)]
pub struct Stored<'a> {
    pub c: usize,
    pub m: usize,
    pub numbers: &'a [u64],
    ghost held: { Held c m numbers.now },
}
