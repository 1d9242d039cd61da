// Numbers as eight bytes, little end first: read from bytes.
#![tactic(auto)]

ghost use Rattle.std.specs.Prelude.{◌≡◌, ◌++◌, ◌+◌, ◌*◌, ◌≤◌, length, drop};
ghost use Rattle.little.specs.Little.{number_at, numbers_at};

// The number whose first byte is byte `at`; the compiler joins the eight bytes to one load.
pub fn number_at(file: &[u8], at: usize) -> u64
    requires { at + 8 ≤ length file.now }
    ensures { result ≡ number_at at file.now }
{
    u64::from_le_bytes([
        file[at],
        file[at + 1],
        file[at + 2],
        file[at + 3],
        file[at + 4],
        file[at + 5],
        file[at + 6],
        file[at + 7],
    ])
}

// Reads the k numbers from byte `at` on into the front of out.
pub fn read_numbers(file: &[u8], at: usize, k: usize, out: &mut [u64])
    requires { (at + 8 * k ≤ length file.now) × (k ≤ length out.old) }
    ensures { out.new ≡ numbers_at k at file.now ++ drop k out.old }
{
    for i in 0..k {
        out[i] = number_at(file, at + 8 * i);
    }
}
