// What the printing program writes into its buffer of bytes: the message of a line, and rows.
#![tactic(auto)]

ghost use Rattle.std.specs.Prelude.{◌≡◌, ◌+◌, ◌*◌, ◌≤◌, length};
ghost use Rattle.text.specs.Text.{Wrote, text_room, number, message, row_text, most_shown, first_text};

use words::Cause;

// What is said of a line: that it was not read, or why it was refused.
#[derive(Clone, Copy)]
pub enum Said {
    Unread,
    Refused(Cause),
}

// Writes some bytes.
pub fn put_bytes(bytes: &[u8], out: &mut [u8], at: usize) -> usize
    requires { at + length bytes.now ≤ length out.old }
    ensures { Wrote bytes.now out.old at result out.new }
{
    let end = at + bytes.len();
    out[at..end].copy_from_slice(bytes);
    end
}

// Writes a number and the byte that stands behind it.
fn put_number(x: u64, behind: u8, out: &mut [u8; 204800], at: usize) -> usize
    requires { at + 21 ≤ text_room }
    ensures { Wrote (number x behind) out.old at result out.new × (result ≤ at + 21) }
{
    let end = decimal::write_number(x, out, at);
    out[end] = behind;
    end + 1
}

// Writes the message of line number `line`, if anything is said of it.
pub fn say(said: Option<Said>, line: u64, out: &mut [u8; 204800], at: usize) -> usize
    requires { at + 50 ≤ text_room }
    ensures { Wrote (message line said) out.old at result out.new × (result ≤ at + 50) }
{
    match said {
        None => at,
        Some(Said::Unread) => {
            let a = put_bytes(b"? ", out, at);
            put_number(line, b'\n', out, a)
        }
        Some(Said::Refused(cause)) => {
            let a = put_bytes(b"refused ", out, at);
            let b = put_number(cause.number(), b' ', out, a);
            put_number(line, b'\n', out, b)
        }
    }
}

// Writes row number i.
fn put_row(i: u64, g: u64, s: u64, m: u64, out: &mut [u8; 204800], at: usize) -> usize
    requires { at + 84 ≤ text_room }
    ensures { Wrote (row_text i g s m) out.old at result out.new × (result ≤ at + 84) }
{
    let a = put_number(i, b' ', out, at);
    let b = put_number(g, b' ', out, a);
    let c = put_number(s, b' ', out, b);
    put_number(m, b'\n', out, c)
}

// Writes the first rows of three columns, each of which has room for 1,024.
pub fn put_rows(rows: usize, columns: &[u64], out: &mut [u8; 204800], at: usize) -> usize
    requires { (length columns.now ≡ 3072) × (rows ≤ most_shown) × (at + rows * 84 ≤ text_room) }
    ensures { Wrote (first_text rows columns.now) out.old at result out.new }
{
    let mut end = at;
    for i in 0..rows {
        end = put_row(
            i as u64,
            columns[i],
            columns[1024 + i],
            columns[2048 + i],
            out,
            end,
        );
    }
    end
}
