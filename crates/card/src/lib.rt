// What C calls: each export hands its arguments to the proved call and turns the answer into two numbers. include/kwadirumpe.h has the prototypes.
#![tactic(auto)]

ghost use Rattle.std.specs.Prelude.{length, ◌≡◌};
ghost use Rattle.model.specs.Calls.{
  fit_answer,
  read_answer,
  read_slice,
  view_part,
  shift_answer,
  row_answer,
  back_answer,
  add_answer,
  add_slice,
  strike_answer,
  strike_slice,
  change_answer,
  change_slice,
  renumber_answer,
  renumber_slice,
  combine_answer,
  combine_slice,
  move_answer,
  move_slice,
};
ghost use Rattle.words.specs.Answer.{number_of};
ghost use Rattle.format.specs.File.{
  file_answer,
  entries_in,
  columns_in,
  rows_in,
  note_in,
  load_answer,
  load_slice,
  save_answer,
  save_slice,
};
ghost use Rattle.told.specs.Told.{Tells, TellsShift, TellsBack, TellsPart};

use told::{Part, Told, ToldShift};

#[unsafe(no_mangle)]
pub extern "C" fn kw_fit(c: usize, m: usize, layer: &[u64], keys: &[u64]) -> Told
    ensures { Tells result (fit_answer c m layer.now keys.now) }
{
    fit::fit(c, m, layer, keys).into()
}

#[unsafe(no_mangle)]
pub extern "C" fn kw_read(
    c: usize,
    m: usize,
    layer: &[u64],
    base: &[u64],
    j: usize,
    out: &mut [u64],
) -> Told
    ensures { let L = layer.now in let B = base.now in let O = out.old in
        Tells result (read_answer c m L B j (length O)) × (out.new ≡ read_slice c m L B j O) }
{
    read::read(c, m, layer, base, j, out).into()
}

// Which part the viewer hands back.
#[unsafe(no_mangle)]
pub extern "C" fn kw_view(
    c: usize,
    m: usize,
    layer: &[u64],
    base: &[u64],
    j: usize,
    out: &[u64],
) -> Part
    ensures { let B = base.now in
        TellsPart result (length B) (view_part c m layer.now B j (length out.now)) }
{
    view::view_part(c, m, layer, base, j, out.len()).into()
}

#[unsafe(no_mangle)]
pub extern "C" fn kw_shift_at(c: usize, n: usize, m: usize, layer: &[u64], s: usize) -> ToldShift
    ensures { TellsShift result (shift_answer c n m layer.now s) }
{
    told::tell_shift(position::shift(c, n, m, layer, s))
}

#[unsafe(no_mangle)]
pub extern "C" fn kw_row(c: usize, n: usize, m: usize, layer: &[u64], s: usize) -> Told
    ensures { Tells result (row_answer c n m layer.now s) }
{
    position::row(c, n, m, layer, s).into()
}

// Back from row number r: value s for base row s, 65536 + i for the added entry number i.
#[unsafe(no_mangle)]
pub extern "C" fn kw_back(c: usize, n: usize, m: usize, layer: &[u64], r: usize) -> Told
    ensures { TellsBack result (back_answer c n m layer.now r) }
{
    told::tell_back(back::back(c, n, m, layer, r))
}

#[unsafe(no_mangle)]
pub extern "C" fn kw_add(c: usize, m: usize, layer: &mut [u64], keys: &[u64], row: &[u64]) -> Told
    ensures { let L = layer.old in let K = keys.now in let R = row.now in
        Tells result (add_answer c m L K R) × (layer.new ≡ add_slice c m L K R) }
{
    add::add(c, m, layer, keys, row).into()
}

#[unsafe(no_mangle)]
pub extern "C" fn kw_strike(c: usize, m: usize, layer: &mut [u64], keys: &[u64], r: usize) -> Told
    ensures { let L = layer.old in let K = keys.now in
        Tells result (strike_answer c m L K r) × (layer.new ≡ strike_slice c m L K r) }
{
    strike::strike(c, m, layer, keys, r).into()
}

#[unsafe(no_mangle)]
pub extern "C" fn kw_change(
    c: usize,
    m: usize,
    layer: &mut [u64],
    keys: &[u64],
    r: usize,
    j: usize,
    v: u64,
) -> Told
    ensures { let L = layer.old in let K = keys.now in
        Tells result (change_answer c m L K r j v) × (layer.new ≡ change_slice c m L K r j v) }
{
    change::change(c, m, layer, keys, r, j, v).into()
}

#[unsafe(no_mangle)]
pub extern "C" fn kw_renumber(
    c: usize,
    n: usize,
    m: usize,
    layer: &mut [u64],
    table: &[u64],
    r: usize,
    g: u64,
) -> Told
    ensures { let L = layer.old in let B = table.now in
        Tells result (renumber_answer c n m L B r g) × (layer.new ≡ renumber_slice c n m L B r g) }
{
    renumber::renumber(c, n, m, layer, table, r, g).into()
}

#[unsafe(no_mangle)]
pub extern "C" fn kw_combine(
    c: usize,
    keys: &[u64],
    mr: usize,
    r: &[u64],
    mw: usize,
    w: &[u64],
    out: &mut [u64],
) -> Told
    ensures { let K = keys.now in let R = r.now in let W = w.now in
        let O = out.old in
        Tells result (combine_answer c K mr R mw W (length O)) × (out.new ≡ combine_slice c K mr R mw W O) }
{
    combine::combine(c, keys, mr, r, mw, w, out).into()
}

#[unsafe(no_mangle)]
pub extern "C" fn kw_move(
    c: usize,
    keys: &[u64],
    mx: usize,
    x: &mut [u64],
    my: usize,
    y: &[u64],
) -> Told
    ensures { let K = keys.now in let X = x.old in let Y = y.now in
        Tells result (move_answer c K mx X my Y) × (x.new ≡ move_slice c K mx X my Y) }
{
    pass::move_past(c, keys, mx, x, my, y).into()
}

// The refusal's number of a file, 0 where it is accepted.
#[unsafe(no_mangle)]
pub extern "C" fn kw_file_check(file: &[u8]) -> u64
    ensures { result ≡ number_of (file_answer file.now) }
{
    words::number(probe::check(file))
}

// The entries, columns and base rows of an accepted file's layer; 0 of a refused one.
#[unsafe(no_mangle)]
pub extern "C" fn kw_file_entries(file: &[u8]) -> u64
    ensures { result ≡ entries_in file.now }
{
    file::entries(file)
}

#[unsafe(no_mangle)]
pub extern "C" fn kw_file_columns(file: &[u8]) -> u64
    ensures { result ≡ columns_in file.now }
{
    file::columns(file)
}

#[unsafe(no_mangle)]
pub extern "C" fn kw_file_rows(file: &[u8]) -> u64
    ensures { result ≡ rows_in file.now }
{
    file::rows(file)
}

// Where the note of an accepted file ends; 0 of a refused one.
#[unsafe(no_mangle)]
pub extern "C" fn kw_file_note(file: &[u8]) -> usize
    ensures { result ≡ note_in file.now }
{
    file::note(file)
}

// Reads a file's layer into the front of a slice.
#[unsafe(no_mangle)]
pub extern "C" fn kw_load(file: &[u8], layer: &mut [u64]) -> Told
    ensures { let F = file.now in let O = layer.old in
        Tells result (load_answer F (length O)) × (layer.new ≡ load_slice F O) }
{
    file::load(file, layer).into()
}

// Writes a layer's file to the front of the bytes.
#[unsafe(no_mangle)]
pub extern "C" fn kw_save(c: usize, n: usize, m: usize, layer: &[u64], file: &mut [u8]) -> Told
    ensures { let L = layer.now in let O = file.old in
        Tells result (save_answer c n m L (length O)) × (file.new ≡ save_slice c n m L O) }
{
    save::save(c, n, m, layer, file).into()
}
