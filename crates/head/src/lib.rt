// An entry by its head: which of two entries stands first, and which rule of conflict they meet.
#![tactic(auto)]

ghost use Rattle.std.specs.Prelude.{◌≡◌};
ghost use Rattle.model.specs.Raw.{column_of};
ghost use Rattle.model.specs.Cell.{agree};
ghost use Rattle.model.specs.Edits.{before};
ghost use Rattle.model.specs.Conflict.{clash, rule_number};
ghost use Rattle.head.specs.Head.{headed, seen, cell_of};

use words::{Entry, Rule};

// The head of an entry: its position, its kind and its first value, which is an add's or a strike's key. The kind is the entry's
// own number (`words::Entry`), since the form check reads heads whose kind is none.
#[derive(Clone, Copy)]
pub struct Head {
    pub pos: u64,
    pub kind: u64,
    pub first: u64,
}

impl Head {
    // The head of an entry at a position, of a kind, with a first value.
    pub fn new(pos: u64, kind: u64, first: u64) -> Self
        ensures { result ≡ headed pos kind first }
    {
        Self { pos, kind, first }
    }
}

// The column that an entry of this kind changes, where it is a change.
pub fn column_of(kind: u64) -> u64
    ensures { result ≡ column_of kind }
{
    kind
}

// An entry with the head d stands before one with the head e in a layer. It is no `Ord`: two changes of one cell, or two strikes
// of one row, stand neither before the other, though their heads differ.
pub fn stands_before(d: Head, e: Head) -> bool
    ensures { result ≡ before (seen d) (seen e) }
{
    if d.pos < e.pos {
        return true;
    }
    if d.pos != e.pos {
        return false;
    }
    let adds = (e.kind != Entry::ADD) | (d.first < e.first);
    let changes = (d.kind != Entry::STRIKE)
        & ((e.kind != Entry::ADD) & ((e.kind != Entry::STRIKE) & (d.kind < e.kind)));
    ((d.kind == Entry::ADD) & adds) | ((d.kind != Entry::ADD) & changes)
}

// Two changes of one cell, by their heads, pass each other: those to one value.
pub fn agrees(mine: Head, theirs: Head) -> bool
    ensures { result ≡ agree (cell_of mine) (cell_of theirs) }
{
    mine.first == theirs.first
}

// The rule of conflict that two entries of one base meet, where they meet one.
pub fn rule_met(mine: Head, theirs: Head) -> Option<Rule>
    ensures { result ≡ clash (seen mine) (seen theirs) }
{
    if (mine.kind == Entry::ADD) & (theirs.kind == Entry::ADD) {
        return if mine.first == theirs.first {
            Some(Rule::SameKey)
        } else {
            None
        };
    }
    if (mine.kind == Entry::ADD) | (theirs.kind == Entry::ADD) {
        return None;
    }
    if mine.pos != theirs.pos {
        return None;
    }
    if (mine.kind == Entry::STRIKE) | (theirs.kind == Entry::STRIKE) {
        return Some(Rule::StruckRow);
    }
    if column_of(mine.kind) != column_of(theirs.kind) {
        return None;
    }
    if agrees(mine, theirs) {
        None
    } else {
        Some(Rule::SameCell)
    }
}

// The number of the rule that is met, 0 where none is.
pub fn rule_number(rule: Option<Rule>) -> u64
    ensures { result ≡ rule_number rule }
{
    match rule {
        Some(rule) => rule as u64,
        None => 0,
    }
}
