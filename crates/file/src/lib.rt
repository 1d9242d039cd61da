// What a file's bytes hold, once checked: its numbers, and the layer read into a slice.
#![tactic(auto)]

ghost use Rattle.std.specs.Prelude.{◌≡◌, ◌-◌, ◌≤◌, length};
ghost use Rattle.little.specs.Little.{number_at};
ghost use Rattle.format.specs.File.{file_answer, load_answer, load_slice, if_done, entries_in, columns_in, rows_in, note_in};

use words::{Cause, Refusal};

// The trailer's number that stands so many bytes before the end of an accepted file; 0 of a refused one.
fn asked(file: &[u8], before: usize) -> u64
    requires { (8 ≤ before) × (before ≤ 32) }
    ensures { let f = file.now in result ≡ if_done (file_answer f) (number_at (length f - before) f) }
{
    match probe::check(file) {
        Ok(_) => little::number_at(file, file.len() - before),
        Err(_) => 0,
    }
}

// The entries of an accepted file's layer, its columns, and its base rows; 0 of a refused one.
pub fn entries(file: &[u8]) -> u64
    ensures { result ≡ entries_in file.now }
{
    asked(file, 24)
}

pub fn columns(file: &[u8]) -> u64
    ensures { result ≡ columns_in file.now }
{
    asked(file, 16)
}

pub fn rows(file: &[u8]) -> u64
    ensures { result ≡ rows_in file.now }
{
    asked(file, 8)
}

// Where the note of an accepted file ends, 0 where it has none; 0 of a refused one.
pub fn note(file: &[u8]) -> usize
    ensures { result ≡ note_in file.now }
{
    match probe::check(file) {
        Ok(_) => file.len() - little::number_at(file, file.len() - 32) as usize,
        Err(_) => 0,
    }
}

// Reads the layer into the front of a slice; it answers the number of entries. An empty layer's file is told first, with no call.
pub fn load(file: &[u8], layer: &mut [u64]) -> Result<usize, Refusal>
    ensures { let F = file.now in let O = layer.old in
        (result ≡ load_answer F (length O)) × (layer.new ≡ load_slice F O) }
{
    if probe::empty(file) {
        return Ok(0);
    }
    let m = probe::whole(file)?;
    let len = file.len();
    let c = little::number_at(file, len - 16) as usize;
    let k = m * (c + 2);
    if layer.len() < k {
        return words::refused(Cause::ShortBuffer, 0);
    }
    little::read_numbers(file, len - (32 + 8 * k), k, layer);
    Ok(m)
}
