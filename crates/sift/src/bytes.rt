// A layer in a file's bytes.
ghost use Rattle.format.specs.File.{InFile};

// A layer of m entries of c values, as it stands in a file from byte `start` on.
#[derive(Clone, Copy)]
pub struct InBytes<'a> {
    pub c: usize,
    pub m: usize,
    pub start: usize,
    pub file: &'a [u8],
    ghost held: { InFile c m start file.now },
}
