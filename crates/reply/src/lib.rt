// The reply to an edit line.
#![tactic(auto)]

ghost use Rattle.std.specs.Prelude.{◌≡◌, ◌<◌};
ghost use Rattle.base.specs.Desk.{Replied};
ghost use Rattle.reply.specs.Reply.{entered as Reply·entered};

use base::{Counts, Desk, Reply};
use text::Said;
use words::Refusal;

// The reply to an edit line whose edit answered so.
pub fn entered(counts: Counts, answer: Result<usize, Refusal>) -> Reply
    requires { counts.lines < 9223372036854775808 }
    ensures { result ≡ Reply·entered counts answer }
{
    let lines = counts.lines + 1;
    match answer {
        Ok(k) => Reply {
            counts: Counts {
                rows: counts.rows,
                entries: k,
                edited: true,
                lines,
            },
            said: None,
        },
        Err(x) => Reply {
            counts: Counts {
                rows: counts.rows,
                entries: counts.entries,
                edited: true,
                lines,
            },
            said: Some(Said::Refused(x.cause)),
        },
    }
}

// Counts the edit line on a desk, and says what is said of it.
pub fn entered_on(desk: &mut Desk, answer: Result<usize, Refusal>) -> Option<Said>
    requires { desk.old.counts.lines < 9223372036854775808 }
    ensures { Replied (Reply·entered desk.old.counts answer) desk.old desk.new result }
{
    let reply = entered(desk.counts, answer);
    desk.counts = reply.counts;
    reply.said
}
