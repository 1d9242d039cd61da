// The base rows of the printing program: what is counted, and a base row entered.
#![tactic(auto)]

mod desk;

ghost use Rattle.std.specs.Prelude.{◌≤◌, ◌<◌, ◌≡◌};
ghost use Rattle.base.specs.Base.{most_base, column_of, stay as Base·stay, below_last, Based};
ghost use Rattle.base.specs.Desk.{sheet_on, reply_on, Replied};

pub use desk::Desk;
use text::Said;
use words::Cause;

// What is counted: base rows that stand, entries of the layer, whether an edit line was read, and lines read.
#[derive(Clone, Copy)]
pub struct Counts {
    pub rows: usize,
    pub entries: usize,
    pub edited: bool,
    pub lines: u64,
}

// The counts after a line, and what is said of it, if anything.
#[derive(Clone, Copy)]
pub struct Reply {
    pub counts: Counts,
    pub said: Option<Said>,
}

// Reads a line that changes nothing, of which so much is said.
pub fn stay(desk: &mut Desk, said: Said) -> Option<Said>
    requires { desk.old.counts.lines < 9223372036854775808 }
    ensures { Replied (Base·stay desk.old.counts said) desk.old desk.new result }
{
    desk.counts.lines += 1;
    Some(said)
}

// Whether the key g is not above the last of the n base keys.
fn not_above(g: u64, n: usize, table: &[u64; 1536]) -> bool
    requires { n ≤ most_base }
    ensures { result ≡ below_last g n (column_of 0 table.now) }
{
    if n == 0 {
        return false;
    }
    g <= table[n - 1]
}

// Enters a base row, where none is refused; whatever the layer is, it stays.
pub fn base_row(desk: &mut Desk, g: u64, s: u64, m: u64) -> Option<Said>
    requires { desk.old.counts.lines < 9223372036854775808 }
    ensures { Based g s m desk.old.counts (sheet_on desk.old) (reply_on desk.new result) (sheet_on desk.new) }
{
    if desk.counts.edited {
        return stay(desk, Said::Unread);
    }
    let n = desk.counts.rows;
    if 512 <= n {
        return stay(desk, Said::Unread);
    }
    if not_above(g, n, &desk.table) {
        return stay(desk, Said::Refused(Cause::KeysUnordered));
    }
    desk.table[n] = g;
    desk.table[512 + n] = s;
    desk.table[1024 + n] = m;
    desk.counts.rows = n + 1;
    desk.counts.lines += 1;
    None
}
