// The input in blocks: the bytes of one taken as its read answered, and the end of the input with the table behind it.
#![tactic(auto)]

ghost use Rattle.std.specs.Prelude.{◌≡◌};
ghost use Rattle.text.specs.Text.{Wrote};
ghost use Rattle.intake.specs.Reader.{reading_of, InFront};
ghost use Rattle.feed.specs.Input.{hushed, Ready};
ghost use Rattle.console.specs.Told.{closing};
ghost use Rattle.blocks.specs.Going.{Moved, went_by, Block};

use intake::Reader;

// How a read went: bytes came, the input ended, or it failed.
#[derive(Clone, Copy)]
pub enum Went {
    On,
    Over,
    Failed,
}

// How a read went that answered so.
fn how(got: Option<usize>) -> Went
    ensures { result ≡ went_by got }
{
    match got {
        None => Went::Failed,
        Some(0) => Went::Over,
        Some(_) => Went::On,
    }
}

// Takes all of the bytes of a block that a read filled, of which so many came, or none where it failed; what they say
// stands in the text. Answers how the read went.
pub fn take_some(reader: &mut Reader, got: Option<usize>, block: &[u8; 4096]) -> Went
    requires { Moved 4096 got × Ready 4096 reader.old }
    ensures { Block got block.now result reader.old reader.new × InFront reader.old.out reader.new }
{
    let n = got.unwrap_or(0);
    feed::take_block(reader, &block[..n]);
    how(got)
}

// Ends the input, and puts the table behind what its last line says. Answers how many bytes of text there are.
pub fn close(reader: &mut Reader) -> usize
    requires { Ready 1 reader.old }
    ensures { Wrote (closing (hushed (reading_of reader.old))) reader.old.out 0 result reader.new.out
        × (reader.new.line ≡ reader.old.line) }
{
    feed::end_input(reader);
    show::finish(&reader.desk, &mut reader.out, reader.at)
}
