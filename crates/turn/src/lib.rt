// One turn of the walk along two layers: what their next entries make of each other, and where both stand then.
#![tactic(auto)]

ghost use Rattle.std.specs.Prelude.{◌≡◌, ◌+◌, ◌-◌, ◌≤◌, ◌<◌, drop};
ghost use Rattle.model.specs.Raw.{layer_of};
ghost use Rattle.over.specs.Over.{over};
ghost use Rattle.turn.specs.Turn.{outset, upper_at, turn_of, Both, Walked};

use over::Stack;
use words::Entry;
use woven::Meets;

// Where the walk stands: before entry i of the lower layer and entry j of the upper, past so many adds and strikes of the
// lower one, with m entries left by what is passed.
#[derive(Clone, Copy)]
pub struct Place {
    pub i: usize,
    pub j: usize,
    pub m: usize,
    pub adds: usize,
    pub strikes: usize,
}

impl Place {
    // Before all entries.
    pub fn first() -> Self
        ensures { result ≡ outset }
    {
        Self {
            i: 0,
            j: 0,
            m: 0,
            adds: 0,
            strikes: 0,
        }
    }
}

// The entry that a turn leaves: the lower layer's as it is; the upper's at a position; the lower's, an added row, with
// the changes of that row that the upper goes on with; the upper's, a change, over the lower's of the same cell.
#[derive(Clone, Copy)]
pub enum Puts {
    AsItIs,
    UpperAt(u64),
    Changed,
    Fused,
}

// A turn: the entry that it leaves, where it leaves one, and where the walk stands then.
#[derive(Clone, Copy)]
pub struct Turn {
    pub puts: Option<Puts>,
    pub to: Place,
}

// The position over the base of an entry at p of the upper layer, past so many adds and strikes of the lower one.
fn rebase(p: u64, adds: usize, strikes: usize) -> u64
    requires { (p ≤ 4096) × (strikes ≤ 512) }
    ensures { result ≡ (p + strikes) - adds }
{
    let q = p as usize + strikes;
    if q < adds {
        return 0;
    }
    (q - adds) as u64
}

// The turn that leaves the upper layer's entry at p.
fn upper_at(p: u64, k: Place) -> Turn
    requires { (k.j < 512) × (k.m ≤ 1024) }
    ensures { result ≡ upper_at p k }
{
    Turn {
        puts: Some(Puts::UpperAt(p)),
        to: Place {
            j: k.j + 1,
            m: k.m + 1,
            ..k
        },
    }
}

// The next turn of the walk, which stands before an entry of the upper layer; its entries concern the keys `names`.
pub fn next(s: &Stack, names: &[u64], k: Place) -> Turn
    requires { let S = s.now in let K = S.keys.now in let N = over S.c K S.mr S.r.now in
        Both S.c K N S.mr S.r.now S.mw S.w.now names.now
        × Walked K N (layer_of S.c S.mr S.r.now) (layer_of S.c S.mw S.w.now) k × (k.j < S.mw) }
    ensures { let S = s.now in let K = S.keys.now in let N = over S.c K S.mr S.r.now in
        result ≡ turn_of K N k (drop k.i (layer_of S.c S.mr S.r.now)) (drop k.j (layer_of S.c S.mw S.w.now)) }
{
    let i = k.i;
    let j = k.j;
    let above = s.upper();
    let upper = above.head(j);
    let there = rebase(upper.pos, k.adds, k.strikes);
    if s.mr <= i {
        return upper_at(there, k);
    }
    let lower = s.lower().head(i);
    match meet::meets(lower, meet::key_of(lower, s.keys), upper, names[j]) {
        Meets::Lower => Turn {
            puts: Some(Puts::AsItIs),
            to: Place {
                i: i + 1,
                m: k.m + 1,
                adds: k.adds + usize::from(lower.kind == Entry::ADD),
                strikes: k.strikes + usize::from(lower.kind == Entry::STRIKE),
                ..k
            },
        },
        Meets::Upper => upper_at(there, k),
        Meets::UpperHere => upper_at(lower.pos, k),
        Meets::Drop => Turn {
            puts: None,
            to: Place { i: i + 1, ..k },
        },
        Meets::Vanish => Turn {
            puts: None,
            to: Place {
                i: i + 1,
                j: j + 1,
                adds: k.adds + 1,
                ..k
            },
        },
        Meets::Patch => {
            let n = meet::changes_ahead(&above, upper.pos, j);
            Turn {
                puts: Some(Puts::Changed),
                to: Place {
                    i: i + 1,
                    j: j + n,
                    m: k.m + 1,
                    adds: k.adds + 1,
                    ..k
                },
            }
        }
        Meets::Fuse => Turn {
            puts: Some(Puts::Fused),
            to: Place {
                i: i + 1,
                j: j + 1,
                m: k.m + 1,
                ..k
            },
        },
    }
}
