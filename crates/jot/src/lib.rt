// Numbers written as eight bytes, little end first.
#![tactic(auto)]

ghost use Rattle.std.specs.Prelude.{◌≡◌, ◌++◌, ◌+◌, ◌*◌, ◌≤◌, length, take, drop};
ghost use Rattle.std.proofs.Math.Seq.{paste};
ghost use Rattle.little.specs.Little.{eight, eights};

// Writes the eight bytes of v from byte `at` on; the compiler joins them to one store.
pub fn put_number(file: &mut [u8], at: usize, v: u64)
    requires { at + 8 ≤ length file.old }
    ensures { file.new ≡ paste file.old at (eight v) 8 }
{
    file[at..at + 8].copy_from_slice(&v.to_le_bytes());
}

// Writes the first k numbers to the front of file, eight bytes each.
pub fn write_numbers(k: usize, numbers: &[u64], file: &mut [u8])
    requires { (k ≤ length numbers.now) × (8 * k ≤ length file.old) }
    ensures { file.new ≡ eights (take k numbers.now) ++ drop (8 * k) file.old }
{
    for i in 0..k {
        put_number(file, 8 * i, numbers[i]);
    }
}
