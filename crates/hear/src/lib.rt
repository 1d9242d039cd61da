// What one line of the printing program does to the base table and the layer, and says.
#![tactic(auto)]

mod edits;

ghost use Rattle.std.specs.Prelude.{◌<◌};
ghost use Rattle.line.specs.Line.{line_of};
ghost use Rattle.base.specs.Desk.{sheet_on, reply_on};
ghost use Rattle.hear.specs.Heard.{Heard};

use base::Desk;
use line::Line;
use text::Said;

// Takes the bytes of one line, without its line feed.
pub fn hear(desk: &mut Desk, bytes: &[u8]) -> Option<Said>
    requires { desk.old.counts.lines < 9223372036854775808 }
    ensures { Heard (line_of bytes.now) desk.old.counts (sheet_on desk.old)
        (reply_on desk.new result) (sheet_on desk.new) }
{
    match line::parse(bytes) {
        Some(Line::Base(g, s, m)) => base::base_row(desk, g, s, m),
        Some(Line::Add(g, s, m)) => edits::add_row(desk, g, s, m),
        Some(Line::Strike(r)) => edits::strike_row(desk, r),
        Some(Line::Change(r, j, v)) => edits::change_row(desk, r, j, v),
        Some(Line::Renumber(r, g)) => edits::renumber_row(desk, r, g),
        None => base::stay(desk, Said::Unread),
    }
}
