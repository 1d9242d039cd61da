// The check of a file's bytes, where they stand.
#![tactic(auto)]

ghost use Rattle.std.specs.Prelude.{◌≡◌, true, ◌≤◌, length, Ok};
ghost use Rattle.format.specs.File.{back, entries, columns, rows, file_answer};

use words::{Cause, Refusal};

// No layer has more numbers: 512 entries of ten.
const MOST_NUMBERS: usize = 5120;

// The four numbers at a file's end.
#[derive(Clone, Copy)]
pub struct End {
    pub back: u64,
    pub entries: u64,
    pub columns: u64,
    pub rows: u64,
}

// Reads the trailer as a run of numbers, so that each comes by one load.
fn trailer_of(file: &[u8]) -> End
    requires { 32 ≤ length file.now }
    ensures { let f = file.now in
        (result.back ≡ back f) × (result.entries ≡ entries f) × (result.columns ≡ columns f) × (result.rows ≡ rows f) }
{
    let mut t = [0u64; 4];
    little::read_numbers(file, file.len() - 32, 4, &mut t);
    End {
        back: t[0],
        entries: t[1],
        columns: t[2],
        rows: t[3],
    }
}

// The check of any file, with the pass over its entries. It is a call: it is too large to stand in line in each of its callers.
pub fn whole(file: &[u8]) -> Result<usize, Refusal>
    ensures { result ≡ file_answer file.now }
{
    let len = file.len();
    if len < 32 {
        return words::refused(Cause::BadFile, 0);
    }
    let t = trailer_of(file);
    let back = t.back;
    let m = t.entries as usize;
    let c = t.columns as usize;
    let n = t.rows as usize;
    if !form::args_ok(c, n, m, MOST_NUMBERS) {
        return words::refused(Cause::BadArguments, 0);
    }
    let reach = 32 + 8 * (m * (c + 2));
    if (back != reach as u64) | ((len < reach) | (reach + 256 < len)) {
        return words::refused(Cause::BadFile, 0);
    }
    form::judge(n, m, sift::scan_file(c, n, m, len - reach, file))?;
    Ok(m)
}

// An accepted file of an empty layer, by its trailer alone. It is small enough to stand in line, so an empty layer's file is answered with no call.
pub fn empty(file: &[u8]) -> bool
    ensures { result ≡ true → file_answer file.now ≡ Ok 0 }
{
    let bytes = file.len();
    if bytes < 32 {
        return false;
    }
    let t = trailer_of(file);
    let back = t.back;
    let m = t.entries as usize;
    let c = t.columns as usize;
    let n = t.rows as usize;
    if m != 0 {
        return false;
    }
    form::args_ok(c, n, m, MOST_NUMBERS) & ((back == 32) & (bytes <= 288))
}

// The file check; it answers the number of entries.
pub fn check(file: &[u8]) -> Result<usize, Refusal>
    ensures { result ≡ file_answer file.now }
{
    if empty(file) {
        return Ok(0);
    }
    whole(file)
}
