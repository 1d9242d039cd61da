// A layer as it is stored in a slice: its entries by number, each with its head, and what an entry does.
#![tactic(auto)]

mod slice;

ghost use Rattle.std.specs.Prelude.{◌≡◌, ◌+◌, ◌*◌, ◌≤◌, ◌<◌, length, get_or, drop, Option, Some, None};
ghost use Rattle.model.specs.Raw.{entry_at};
ghost use Rattle.head.specs.Head.{head_of};
ghost use Rattle.entry.specs.Look.{look_of, edits, entry_of};

use head::Head;
pub use slice::Stored;
use words::Entry;

// What an entry does: it adds a row at s, by its key; it strikes base row s, with its key; it changes column j of base row
// s to v.
#[derive(Clone, Copy)]
pub enum Sight {
    Add(u64, u64),
    Strike(u64, u64),
    Change(u64, u64, u64),
}

// The kind of the entry that stands from `at` on, in whatever numbers.
pub fn kind_at(c: usize, at: usize, layer: &[u64]) -> u64
    requires { at + (c + 2) ≤ length layer.now }
    ensures { result ≡ (entry_at c at layer.now).kind }
{
    layer[at + 1]
}

impl Stored<'_> {
    // The position of entry i.
    pub fn pos(&self, i: usize) -> u64
        requires { i < self.now.m }
        ensures { result ≡ (entry_of self.now i).pos }
    {
        self.numbers[i * (self.c + 2)]
    }

    // Its kind.
    pub fn kind(&self, i: usize) -> u64
        requires { i < self.now.m }
        ensures { result ≡ (entry_of self.now i).kind }
    {
        kind_at(self.c, i * (self.c + 2), self.numbers)
    }

    // Its value j.
    pub fn value(&self, i: usize, j: usize) -> u64
        requires { (i < self.now.m) × (j < self.now.c) }
        ensures { result ≡ get_or (entry_of self.now i).vals j 0 }
    {
        self.numbers[i * (self.c + 2) + 2 + j]
    }

    // Its head.
    pub fn head(&self, i: usize) -> Head
        requires { i < self.now.m }
        ensures { result ≡ head_of (entry_of self.now i) }
    {
        Head {
            pos: self.pos(i),
            kind: self.kind(i),
            first: self.value(i, 0),
        }
    }

    // What entry i does.
    pub fn sight(&self, i: usize) -> Sight
        requires { i < self.now.m }
        ensures { Some result ≡ look_of (drop i (edits self.now)) }
    {
        let h = self.head(i);
        if h.kind == Entry::ADD {
            return Sight::Add(h.pos, h.first);
        }
        if h.kind == Entry::STRIKE {
            return Sight::Strike(h.pos, h.first);
        }
        Sight::Change(h.pos, head::column_of(h.kind), h.first)
    }

    // What entry i does, if there is one.
    pub fn look(&self, i: usize) -> Option<Sight>
        ensures { result ≡ look_of (drop i (edits self.now)) }
    {
        if self.m <= i {
            return None;
        }
        Some(self.sight(i))
    }
}
