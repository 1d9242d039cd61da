// One field of a line, read as a number.
#![tactic(auto)]

ghost use Rattle.std.specs.Prelude.{◌≡◌, ◌≤◌, ◌<◌, length, drop};
ghost use Rattle.field.specs.Scan.{grown_by, scanned};

// A number that ends the line, or one with the index of the next field.
#[derive(Clone, Copy)]
pub enum Field {
    Last(u64),
    More(u64, usize),
}

// v with the digit b behind it, where b is a digit and 64 bits hold the number.
fn grow(v: u64, b: u8) -> Option<u64>
    ensures { result ≡ grown_by v b }
{
    if !b.is_ascii_digit() {
        return None;
    }
    v.checked_mul(10)?.checked_add(u64::from(b - b'0'))
}

// The number that starts at index at, if one does.
pub fn number_at(bytes: &[u8], at: usize) -> Option<Field>
    requires { at ≤ length bytes.now }
    ensures { result ≡ scanned 0 0 at (drop at bytes.now) }
{
    let mut v: u64 = 0;
    let mut k: usize = 0;
    for i in at..bytes.len() {
        let b = bytes[i];
        if b == b' ' {
            if k < 1 {
                return None;
            }
            return Some(Field::More(v, i + 1));
        }
        if 20 <= k {
            return None;
        }
        k += 1;
        v = grow(v, b)?;
    }
    if k < 1 {
        return None;
    }
    Some(Field::Last(v))
}
