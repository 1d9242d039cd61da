// One byte of the input taken: a line feed ends a line, which is heard; any other byte is kept.
#![tactic(auto)]

ghost use Rattle.std.specs.Prelude.{◌≡◌, [], ◌∷◌, ◌≤◌};
ghost use Rattle.intake.specs.Reading.{most_kept, byte_kept};

use base::Desk;

// What is read so far: the counts, the base table and the layer over it on a desk, the bytes kept of the line that has begun, and
// the text that was said.
#[derive(Drop)]
pub struct Reader {
    pub desk: Desk,
    pub kept: usize,
    pub line: [u8; 65],
    pub at: usize,
    pub out: [u8; 204800],
    pub ghost short: { kept ≤ most_kept },
}

impl Reader {
    ghost use Rattle.intake.specs.Reader.{reading_of, Writes, Took, Spacious, Ended};

    // Keeps one byte more of the line, up to 65.
    fn keep(&mut self, b: u8)
        ensures { (reading_of self.new ≡ byte_kept b (reading_of self.old))
            × (self.new.at ≡ self.old.at) × (self.new.out ≡ self.old.out) }
    {
        if self.kept < 65 {
            self.line[self.kept] = b;
            self.kept += 1;
        }
    }

    // Ends the line that has begun.
    pub fn end_line(&mut self)
        requires { Spacious 1 self.old }
        ensures { Ended self.old self.new × Writes self.old self.new × (self.new.line ≡ self.old.line) }
    {
        let line: &[u8] = &self.line;
        let said = hear::hear(&mut self.desk, &line[..self.kept]);
        self.at = text::say(said, self.desk.counts.lines, &mut self.out, self.at);
        self.kept = 0;
    }

    // Takes one byte.
    pub fn take_byte(&mut self, b: u8)
        requires { Spacious 1 self.old }
        ensures { Took (b ∷ []) self.old self.new × Writes self.old self.new }
    {
        if b == b'\n' {
            self.end_line();
        } else {
            self.keep(b);
        }
    }
}
