// One pass over the entries of a file, where they stand: the first that breaks a rule of form, and the adds and strikes before it.
#![tactic(auto)]

mod bytes;

ghost use Rattle.std.specs.Prelude.{◌≡◌, ◌+◌, ◌*◌, ◌≤◌, ◌<◌, length};
ghost use Rattle.order.specs.Lists.{count};
ghost use Rattle.little.specs.Little.{numbers_at};
ghost use Rattle.words.specs.Entry.{ADD, STRIKE};
ghost use Rattle.model.specs.Raw.{entries_of};
ghost use Rattle.scan.specs.Scan.{good, of_kind};
ghost use Rattle.format.specs.File.{width, InFile};
ghost use Rattle.sift.specs.Bytes.{bytes_wide, bytes_few};

use bytes::InBytes;
use head::Head;
use scan::{Entries, Scan};

impl InBytes<'_> {
    // The first byte of entry i.
    fn at(&self, i: usize) -> usize
        requires { i < self.now.m }
        ensures { (result ≡ self.now.start + 8 * (i * (self.now.c + 2)))
            × (result + 8 * (self.now.c + 2) ≤ length self.now.file.now) }
    {
        self.start + 8 * (i * (self.c + 2))
    }
}

impl Entries for InBytes<'_> {
    ghost entries = { λ l. entries_of l.c l.m (numbers_at (width l.c l.m) l.start l.file.now) };

    ghost columns = { λ l. l.c };

    ghost wide = { bytes_wide };

    ghost few = { bytes_few };

    fn columns(&self) -> usize {
        self.c
    }

    fn count(&self) -> usize {
        self.m
    }

    fn head(&self, i: usize) -> Head {
        let at = self.at(i);
        Head {
            pos: little::number_at(self.file, at),
            kind: little::number_at(self.file, at + 8),
            first: little::number_at(self.file, at + 16),
        }
    }

    fn value(&self, i: usize, j: usize) -> u64 {
        little::number_at(self.file, self.at(i) + 16 + 8 * j)
    }
}

// The pass over the m entries from byte `start` on.
pub fn scan_file(c: usize, n: usize, m: usize, start: usize, file: &[u8]) -> Scan
    requires { InFile c m start file.now }
    ensures { let es = entries_of c m (numbers_at (width c m) start file.now) in
        (result.place ≡ length (good c n es)) × (result.adds ≡ count (of_kind ADD) (good c n es))
        × (result.strikes ≡ count (of_kind STRIKE) (good c n es)) }
{
    let layer = InBytes { c, m, start, file };
    scan::scan_entries(n, &layer)
}
