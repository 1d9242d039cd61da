// A column read through a layer into a work buffer.
#![tactic(auto)]

ghost use Rattle.std.specs.Prelude.{◌≡◌, length};
ghost use Rattle.model.specs.Calls.{read_answer, read_slice};

use entry::Stored;
use words::{Cause, Refusal};

// What reading column j into a buffer of len numbers answers.
// It takes (c, m, layer) as they are lent: they make no Stored before the form check.
pub fn answer(
    c: usize,
    m: usize,
    layer: &[u64],
    base: &[u64],
    j: usize,
    len: usize,
) -> Result<usize, Refusal>
    ensures { result ≡ read_answer c m layer.now base.now j len }
{
    if c <= j {
        return words::refused(Cause::BadArguments, 0);
    }
    let rows = form::check_layer(c, base.len(), m, layer)?;
    if len < rows {
        return words::refused(Cause::ShortBuffer, 0);
    }
    Ok(rows)
}

// Reads column j of the base through the layer of m entries: writes it to the buffer's front, and answers the row count.
pub fn read(
    c: usize,
    m: usize,
    layer: &[u64],
    base: &[u64],
    j: usize,
    out: &mut [u64],
) -> Result<usize, Refusal>
    ensures { let L = layer.now in let B = base.now in let O = out.old in
        (result ≡ read_answer c m L B j (length O)) × (out.new ≡ read_slice c m L B j O) }
{
    answer(c, m, layer, base, j, out.len())?;
    let stored = Stored {
        c,
        m,
        numbers: layer,
    };
    Ok(column::read_part(&stored, base, j, out))
}
