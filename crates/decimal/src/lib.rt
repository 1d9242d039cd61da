// Numbers written in decimal.
#![tactic(auto)]

ghost use Rattle.std.specs.Prelude.{◌≡◌, ◌+◌, ◌%◌, ◌≤◌, ◌<◌, length};
ghost use Rattle.std.proofs.Math.Seq.{paste};
ghost use Rattle.decimal.specs.Decimal.{digits, decimal};

// How many digits x has, none for zero.
fn count_digits(x: u64) -> usize
    ensures { result ≡ length (digits x) }
{
    let mut rest = x;
    let mut k: usize = 0;
    while 0 < rest {
        rest /= 10;
        k += 1;
    }
    k
}

// The byte of the last digit of x.
fn last_digit(x: u64) -> u8
    ensures { result ≡ 48 + x % 10 }
{
    48 + (x % 10) as u8
}

// Writes the digits of x so that they end before index end.
fn write_digits(x: u64, out: &mut [u8], at: usize, end: usize)
    requires { (end ≡ at + length (digits x)) × (end ≤ length out.old) }
    ensures { out.new ≡ paste out.old at (digits x) (length (digits x)) }
{
    let mut rest = x;
    for i in (at..end).rev() {
        out[i] = last_digit(rest);
        rest /= 10;
    }
}

// Writes x in decimal from index at on, and answers the index after its last digit.
pub fn write_number(x: u64, out: &mut [u8], at: usize) -> usize
    requires { at + 20 ≤ length out.old }
    ensures { (result ≡ at + length (decimal x))
        × (out.new ≡ paste out.old at (decimal x) (length (decimal x))) }
{
    if x == 0 {
        out[at] = b'0';
        return at + 1;
    }
    let end = at + count_digits(x);
    write_digits(x, out, at, end);
    end
}
