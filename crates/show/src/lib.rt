// The table at the end: the base columns read through the layer, and its rows as text.
#![tactic(auto)]

ghost use Rattle.std.specs.Prelude.{◌≡◌, ◌+◌, ◌*◌, ◌≤◌, ◌<◌, length, take};
ghost use Rattle.model.specs.Raw.{layer_of};
ghost use Rattle.model.specs.Read.{read, read_column};
ghost use Rattle.text.specs.Text.{Wrote, text_room, table_text, most_shown, front};
ghost use Rattle.base.specs.Base.{most_base, column_of, table_of};
ghost use Rattle.base.specs.Desk.{sheet_on};
ghost use Rattle.show.specs.Shown.{Formed, ending};

use base::Desk;
use entry::Stored;

// Reads column j of the n base rows to its place in the work buffer; the layer keeps form and shows so many rows.
fn read_column(
    rows: usize,
    n: usize,
    m: usize,
    layer: &[u64],
    table: &[u64],
    j: usize,
    work: &mut [u64],
)
    requires { Formed rows n m layer.now × (n ≤ most_base) × (length table.now ≡ 1536) × (j < 3)
        × (rows ≤ most_shown) × (length work.old ≡ 3072) }
    ensures { (front rows j work.new
        ≡ read_column j (take n (column_of j table.now)) (layer_of 3 m layer.now))
        × (take (most_shown * j) work.new ≡ take (most_shown * j) work.old) }
{
    let from = 512 * j;
    let at = 1024 * j;
    let stored = Stored {
        c: 3,
        m,
        numbers: layer,
    };
    column::read_part(&stored, &table[from..from + n], j, &mut work[at..at + 1024]);
}

// Writes the rows that the layer shows; it keeps form and shows so many.
fn put_table(
    rows: usize,
    n: usize,
    m: usize,
    layer: &[u64],
    table: &[u64],
    out: &mut [u8; 204800],
    at: usize,
) -> usize
    requires { Formed rows n m layer.now × (n ≤ most_base) × (length table.now ≡ 1536) × (rows ≤ most_shown)
        × (at + rows * 84 ≤ text_room) }
    ensures { Wrote (table_text 0 (read (table_of n table.now) (layer_of 3 m layer.now)))
        out.old at result out.new }
{
    let mut work = [0u64; 3072];
    read_column(rows, n, m, layer, table, 0, &mut work);
    read_column(rows, n, m, layer, table, 1, &mut work);
    read_column(rows, n, m, layer, table, 2, &mut work);
    text::put_rows(rows, &work, out, at)
}

// Writes the header and the rows.
pub fn finish(desk: &Desk, out: &mut [u8; 204800], at: usize) -> usize
    requires { at + 22 + most_shown * 84 ≤ text_room }
    ensures { Wrote (ending desk.now.counts (sheet_on desk.now))
        out.old at result out.new }
{
    let end = text::put_bytes(b"row group source mask\n", out, at);
    let n = desk.counts.rows;
    let m = desk.counts.entries;
    match form::check(3, n, m, &desk.layer) {
        Err(_) => end,
        Ok(rows) => put_table(rows, n, m, &desk.layer, &desk.table, out, end),
    }
}
