// Reads lines from standard input, prints what they say as they are read, and the table at the end.
#![tactic(auto)]

ghost use Rattle.std.specs.Prelude.{◌≡◌, ◌≤◌, length, Some, None, IfOk, MatchResult};
ghost use Rattle.blocks.specs.Going.{Moved};

use blocks::Went;
use std::io;
use std::io::{Read, Write};
use std::process::ExitCode;

// Writes the first n bytes of the text.
fn write_text(rt: &HostRuntime, out: &[u8; 204800], n: usize) -> io::Result<()>
    requires { n ≤ length out.now }
{
    let text = &out[..];
    rt.stdout().write_all(&text[..n])
}

// Reads a block, and answers how many bytes came, or the error.
fn read_block(rt: &HostRuntime, block: &mut [u8; 4096]) -> io::Result<usize>
    ensures { IfOk result (λ n. n ≤ 4096) }
{
    rt.stdin().read(block)
}

// How many bytes a read brought, or none where it failed.
fn count(read: &io::Result<usize>) -> Option<usize>
    requires { IfOk read.now (λ n. n ≤ 4096) }
    ensures moved { Moved 4096 result }
    ensures value { MatchResult read.now (λ n. result ≡ Some n) (λ e. result ≡ None) }
{
    read.as_ref().ok().copied()
}

// Says on standard error what failed and how, and that the program failed.
fn fail(rt: &HostRuntime, what: &str, why: io::Error) -> ExitCode {
    let said = eprintln!(rt; "kwadirumpe: {what}: {why}");
    ExitCode::FAILURE
}

// Reads block after block, up to a number of blocks that no input has, and prints the table. Where the input cannot be read
// or the output not written it says so and prints no more.
fn main(rt: HostRuntime) -> ExitCode {
    let mut reader = feed::start();
    let mut block = [0u8; 4096];
    for turn in 0..1125899906842624u64 {
        let read = read_block(&rt, &mut block);
        let got = count(&read);
        let went = blocks::take_some(&mut reader, got, &block);
        match went {
            Went::On => {
                if let Err(e) = write_text(&rt, &reader.out, reader.at) {
                    return fail(&rt, "the output could not be written", e);
                }
            }
            Went::Over => break,
            Went::Failed => {
                if let Err(e) = read {
                    return fail(
                        &rt,
                        "the input could not be read, and no table is printed",
                        e,
                    );
                }
                return ExitCode::FAILURE;
            }
        }
    }
    let n = blocks::close(&mut reader);
    if let Err(e) = write_text(&rt, &reader.out, n) {
        return fail(&rt, "the output could not be written", e);
    }
    ExitCode::SUCCESS
}
