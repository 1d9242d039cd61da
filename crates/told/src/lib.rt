// What the calls answer, turned into the numbers that C gets.
#![tactic(auto)]

ghost use Rattle.std.specs.Prelude.{◌+◌, ◌≤◌, pos, nat_abs, ◌≡◌};
ghost use Rattle.words.specs.Answer.{shift_value};
ghost use Rattle.told.specs.Told.{Tells, TellsShift, TellsBack, SmallAdded, TellsSeen};

use view::Seen;
use words::{Origin, Refusal};

// An answer: number 0 and the result, or the refusal's number and its place.
#[repr(C)]
#[derive(Clone, Copy)]
pub struct Told {
    pub number: u64,
    pub value: usize,
}

// The same with a signed result: a type of its own, since an export's struct can have no type parameter.
#[repr(C)]
#[derive(Clone, Copy)]
pub struct ToldShift {
    pub number: u64,
    pub value: i64,
}

// The viewer's answer, which is no refusal: whether it is the front of the buffer, else a part of the base column; and its length.
#[repr(C)]
#[derive(Clone, Copy)]
pub struct Part {
    pub front: u64,
    pub count: usize,
}

impl From<Result<usize, Refusal>> for Told {
    ghost from_gives = { λ a r. Tells r a };

    fn from(answer: Result<usize, Refusal>) -> Self {
        Self {
            number: words::number(answer),
            value: words::value(answer),
        }
    }
}

// A place as a signed number.
fn signed(k: usize) -> i64
    requires { k ≤ 512 }
    ensures { result ≡ pos k }
{
    k as i64
}

// A shift or a place, both small. A function and not a `From`, since it requires that.
pub fn tell_shift(a: Result<i64, Refusal>) -> ToldShift
    requires { nat_abs (shift_value a) ≤ 512 }
    ensures { TellsShift result a }
{
    match a {
        Ok(z) => ToldShift {
            number: 0,
            value: z,
        },
        Err(x) => ToldShift {
            number: x.cause.number(),
            value: signed(x.place),
        },
    }
}

// An added entry's number, past all row numbers.
fn past_rows(i: usize) -> usize
    requires { i ≤ 512 }
    ensures { result ≡ 65536 + i }
{
    65536 + i
}

// The way back from a row number: value s for base row s, 65536 + i for the added entry number i. A function and not a
// `From`, since it requires i to be small.
pub fn tell_back(a: Result<Origin, Refusal>) -> Told
    requires { SmallAdded a }
    ensures { TellsBack result a }
{
    match a {
        Ok(Origin::Base(s)) => Told {
            number: 0,
            value: s,
        },
        Ok(Origin::Added(i)) => Told {
            number: 0,
            value: past_rows(i),
        },
        Err(x) => Told {
            number: x.cause.number(),
            value: x.place,
        },
    }
}

impl From<Option<Seen>> for Part {
    ghost from_gives = { λ p r. TellsSeen r p };

    fn from(part: Option<Seen>) -> Self {
        Self {
            front: view::number(part),
            count: view::value(part),
        }
    }
}
