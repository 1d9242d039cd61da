// The words of the scope that code and contracts share: an entry and its kinds, the limits, a refusal and its cause, the answers.
#![tactic(auto)]

ghost use Rattle.std.specs.Prelude.{◌≡◌, Err};
ghost use Rattle.words.specs.Answer.{cause_number, refusal, number_of, value_of};
ghost use Rattle.words.specs.Entry.{add_entry, strike_entry, change_entry};

// The limits: columns of a table, entries of a layer, rows of a table before and after a layer.
pub const MOST_COLUMNS: usize = 8;

pub const MOST_ENTRIES: usize = 512;

pub const MOST_ROWS: usize = 4096;

// One entry of a layer: its position, its kind and its values, of which the first c count. A kind is a number, and no enum: it
// is what C's memory holds, also where that is no kind, and a change's kind is its column.
#[derive(Clone, Copy)]
pub struct Entry {
    pub pos: u64,
    pub kind: u64,
    pub vals: [u64; 8],
}

impl Entry {
    pub const ADD: u64 = 65535;

    pub const STRIKE: u64 = 65534;

    // The entry that adds the row at position s.
    pub fn add(s: u64, row: [u64; 8]) -> Self
        ensures { result ≡ add_entry s row }
    {
        Self {
            pos: s,
            kind: Entry::ADD,
            vals: row,
        }
    }

    // The entry that strikes base row s, whose key is k.
    pub fn strike(s: u64, k: u64) -> Self
        ensures { result ≡ strike_entry s k }
    {
        Self {
            pos: s,
            kind: Entry::STRIKE,
            vals: [k, 0, 0, 0, 0, 0, 0, 0],
        }
    }

    // The entry that changes column j of base row s to v.
    pub fn change(s: u64, j: u64, v: u64) -> Self
        ensures { result ≡ change_entry s j v }
    {
        Self {
            pos: s,
            kind: j,
            vals: [v, 0, 0, 0, 0, 0, 0, 0],
        }
    }
}

// Why a call is refused, each under its number in the scope's table.
#[derive(Clone, Copy, Debug, PartialEq, Eq)]
pub enum Cause {
    BadArguments = 1,
    BadForm = 2,
    KeysUnordered = 3,
    BadFit = 4,
    NoSuchRow = 5,
    KeyColumn = 6,
    KeyShown = 7,
    InConflict = 8,
    NoRoom = 9,
    TooManyRows = 10,
    ShortBuffer = 11,
    BadFile = 12,
}

impl Cause {
    // Its number in the scope's table.
    pub fn number(self) -> u64
        ensures { result ≡ cause_number self }
    {
        self as u64
    }
}

// A refusal: its cause, and its place.
#[derive(Clone, Copy, Debug, PartialEq, Eq)]
pub struct Refusal {
    pub cause: Cause,
    pub place: usize,
}

// The answer that a call is refused, by its cause and place.
pub fn refused<T>(cause: Cause, place: usize) -> Result<T, Refusal>
    ensures { result ≡ Err (refusal cause place) }
{
    Err(Refusal { cause, place })
}

// The rules of conflict between two edits of one base, each under its number.
#[derive(Clone, Copy, Debug, PartialEq, Eq)]
pub enum Rule {
    // One strikes a base row that the other strikes or changes.
    StruckRow = 1,
    // Both change one column of one base row, to different values.
    SameCell = 2,
    // Both add one key.
    SameKey = 3,
}

// What stands at a row number: base row s, or the added entry number i.
#[derive(Clone, Copy, Debug, PartialEq, Eq)]
pub enum Origin {
    Base(usize),
    Added(usize),
}

// The scope's number of what most calls answer, a count (rows, entries, a row number; 0 where there is nothing to count) or a
// refusal: 0, or the refusal's.
pub fn number(answer: Result<usize, Refusal>) -> u64
    ensures { result ≡ number_of answer }
{
    match answer {
        Ok(_) => 0,
        Err(x) => x.cause.number(),
    }
}

// The value that stands beside the number: the count, or the refusal's place.
pub fn value(answer: Result<usize, Refusal>) -> usize
    ensures { result ≡ value_of answer }
{
    match answer {
        Ok(k) => k,
        Err(x) => x.place,
    }
}
