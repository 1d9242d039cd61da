// What a line of the printing program says.
#![tactic(auto)]

ghost use Rattle.std.specs.Prelude.{◌≡◌, [], ◌∷◌, ◌≤◌, length, drop};
ghost use Rattle.line.specs.Line.{fields, said, line_of};
ghost use Rattle.line.specs.Fields.{with_fields};

use field::Field;

// What a line says: a base row, a row to add, the number of a row to strike, a row number, a column and a value to
// change it to, or a row number and the group number to give it.
#[derive(Clone, Copy)]
pub enum Line {
    Base(u64, u64, u64),
    Add(u64, u64, u64),
    Strike(u64),
    Change(u64, u64, u64),
    Renumber(u64, u64),
}

// What the sign, a line's first byte as it was read, says of one number.
fn one(sign: u8, r: u64) -> Option<Line>
    ensures { result ≡ said (sign ∷ []) (r ∷ []) }
{
    if sign == b'-' {
        return Some(Line::Strike(r));
    }
    None
}

// What the sign says of two numbers.
fn two(sign: u8, a: u64, b: u64) -> Option<Line>
    ensures { result ≡ said (sign ∷ []) (a ∷ b ∷ []) }
{
    if sign == b'!' {
        return Some(Line::Renumber(a, b));
    }
    None
}

// What the sign says of three numbers.
fn three(sign: u8, a: u64, b: u64, c: u64) -> Option<Line>
    ensures { result ≡ said (sign ∷ []) (a ∷ b ∷ c ∷ []) }
{
    if sign == b'B' {
        return Some(Line::Base(a, b, c));
    }
    if sign == b'+' {
        return Some(Line::Add(a, b, c));
    }
    if sign == b'=' {
        return Some(Line::Change(a, b, c));
    }
    None
}

// The line whose third number starts at index at.
fn with_third(bytes: &[u8], at: usize, sign: u8, a: u64, b: u64) -> Option<Line>
    requires { at ≤ length bytes.now }
    ensures { result ≡ with_fields (sign ∷ []) (a ∷ b ∷ []) (fields (drop at bytes.now)) }
{
    match field::number_at(bytes, at)? {
        Field::Last(c) => three(sign, a, b, c),
        Field::More(_, _) => None,
    }
}

// The line whose second number starts at index at.
fn with_second(bytes: &[u8], at: usize, sign: u8, a: u64) -> Option<Line>
    requires { at ≤ length bytes.now }
    ensures { result ≡ with_fields (sign ∷ []) (a ∷ []) (fields (drop at bytes.now)) }
{
    match field::number_at(bytes, at)? {
        Field::Last(b) => two(sign, a, b),
        Field::More(b, next) => with_third(bytes, next, sign, a, b),
    }
}

// What the bytes of a line say, without its line feed, where they can be read.
pub fn parse(bytes: &[u8]) -> Option<Line>
    ensures { result ≡ line_of bytes.now }
{
    if bytes.len() < 2 {
        return None;
    }
    let sign = bytes[0];
    if sign == b' ' {
        return None;
    }
    if bytes[1] != b' ' {
        return None;
    }
    match field::number_at(bytes, 2)? {
        Field::Last(a) => one(sign, a),
        Field::More(a, next) => with_second(bytes, next, sign, a),
    }
}
