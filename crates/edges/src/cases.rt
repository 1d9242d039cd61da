// The cases of a text, one to a line.

// Prints a line's case, where it has one, and what it answers.
fn line(text: &[u8]) {
    if let Some(end) = text.iter().position(|b| *b == b'=') {
        io::write_all(1, &text[..=end]);
        let case = &text[..end];
        crate::call::run(case);
        io::write_all(1, b"\n");
    }
}

// The lines of a text.
pub fn run(text: &[u8]) {
    for part in text.split(|b| *b == b'\n') {
        line(part);
    }
}
