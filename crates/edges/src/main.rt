// Runs the calls on the cases of standard input, one to a line, and prints each case with what it answered.
// What stands before `=` on a line is the case: a call, its numbers, and its slices between semicolons. What follows is
// what the scope gives for it, and why; the program does not read that. A line without `=` is passed over.
#![tactic(auto)]

mod call;
mod cases;

fn main() {
    let mut text = io::large_buffer();
    let n = io::read_full(0, &mut text);
    cases::run(&text[..n]);
}
