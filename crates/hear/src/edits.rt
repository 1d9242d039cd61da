// The four edits.
ghost use Rattle.std.specs.Prelude.{◌<◌, Some};
ghost use Rattle.line.specs.declared.Line.TheVariants.{Add, Strike, Change, Renumber};
ghost use Rattle.base.specs.Desk.{sheet_on, reply_on};
ghost use Rattle.hear.specs.Heard.{Heard};

use base::Desk;
use text::Said;

// Adds a row.
pub fn add_row(desk: &mut Desk, g: u64, s: u64, m: u64) -> Option<Said>
    requires { desk.old.counts.lines < 9223372036854775808 }
    ensures { Heard (Some (Add g s m)) desk.old.counts (sheet_on desk.old)
        (reply_on desk.new result) (sheet_on desk.new) }
{
    let row = [g, s, m];
    let n = desk.counts.rows;
    let numbers: &[u64] = &desk.table;
    let answer = add::add(3, desk.counts.entries, &mut desk.layer, &numbers[..n], &row);
    reply::entered_on(desk, answer)
}

// Strikes row number r.
pub fn strike_row(desk: &mut Desk, r: u64) -> Option<Said>
    requires { desk.old.counts.lines < 9223372036854775808 }
    ensures { Heard (Some (Strike r)) desk.old.counts (sheet_on desk.old)
        (reply_on desk.new result) (sheet_on desk.new) }
{
    let n = desk.counts.rows;
    let numbers: &[u64] = &desk.table;
    let answer = strike::strike(
        3,
        desk.counts.entries,
        &mut desk.layer,
        &numbers[..n],
        r as usize,
    );
    reply::entered_on(desk, answer)
}

// Changes column j of row number r to v.
pub fn change_row(desk: &mut Desk, r: u64, j: u64, v: u64) -> Option<Said>
    requires { desk.old.counts.lines < 9223372036854775808 }
    ensures { Heard (Some (Change r j v)) desk.old.counts (sheet_on desk.old)
        (reply_on desk.new result) (sheet_on desk.new) }
{
    let n = desk.counts.rows;
    let numbers: &[u64] = &desk.table;
    let answer = change::change(
        3,
        desk.counts.entries,
        &mut desk.layer,
        &numbers[..n],
        r as usize,
        j as usize,
        v,
    );
    reply::entered_on(desk, answer)
}

// Gives row number r the group number g.
pub fn renumber_row(desk: &mut Desk, r: u64, g: u64) -> Option<Said>
    requires { desk.old.counts.lines < 9223372036854775808 }
    ensures { Heard (Some (Renumber r g)) desk.old.counts (sheet_on desk.old)
        (reply_on desk.new result) (sheet_on desk.new) }
{
    let n = desk.counts.rows;
    let m = desk.counts.entries;
    let answer = renumber::renumber_apart(
        3,
        n,
        512,
        m,
        &mut desk.layer,
        &desk.table,
        r as usize,
        g,
    );
    reply::entered_on(desk, answer)
}
