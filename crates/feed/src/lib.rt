// The input's start, a block of its bytes taken, and its end.
#![tactic(auto)]

ghost use Rattle.std.specs.Prelude.{◌≡◌, length};
ghost use Rattle.intake.specs.Reader.{InFront, Took};
ghost use Rattle.feed.specs.Input.{anew, Begun, Ready, Closed};

use base::{Counts, Desk};
use intake::Reader;

// Before the first byte.
pub fn start() -> Reader
    ensures { Begun result }
{
    Reader {
        desk: Desk {
            counts: Counts {
                rows: 0,
                entries: 0,
                edited: false,
                lines: 0,
            },
            table: [0; 1536],
            layer: [0; 2560],
        },
        kept: 0,
        line: [0; 65],
        at: 0,
        out: [0; 204800],
    }
}

// Ends the input: a line that has begun ends with it. The text starts anew.
pub fn end_input(reader: &mut Reader)
    requires { Ready 1 reader.old }
    ensures { Closed (anew reader.old) reader.new × InFront reader.old.out reader.new
        × (reader.new.line ≡ reader.old.line) }
{
    reader.at = 0;
    if 0 < reader.kept {
        reader.end_line();
    }
}

// Takes a block of bytes: the line that has begun goes on, and the text starts anew.
pub fn take_block(reader: &mut Reader, block: &[u8])
    requires { Ready (length block.now) reader.old }
    ensures { Took block.now (anew reader.old) reader.new × InFront reader.old.out reader.new }
{
    reader.at = 0; // what was said is written
    for &b in block {
        reader.take_byte(b);
    }
}
