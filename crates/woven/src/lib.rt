// What the next edits of two layers make of each other; the rest of this crate is laws about layers.
#![tactic(auto)]

// What the next edits of both layers make of each other.
// Lower: the lower layer's stands as it is. Upper: the upper's stands, at its base position. UpperHere: the same, at the
// lower's position.
// Drop: the lower's goes. Vanish: both go. Patch: the lower's added row takes the upper's changes in. Fuse: both are one
// change, the upper's over the lower's.
#[derive(Clone, Copy)]
pub enum Meets {
    Lower,
    Upper,
    UpperHere,
    Drop,
    Vanish,
    Patch,
    Fuse,
}
