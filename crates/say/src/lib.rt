// What a call answered: the number of the answer and its value, and the numbers of a slice.
#![tactic(auto)]

use numbers::get;
use view::Seen;
use words::{Origin, Refusal};

// A number after some text.
fn after(text: &[u8], x: u64) {
    io::write_all(1, text);
    io::print_decimal(1, x);
}

// An answer after some text.
pub fn answer(text: &[u8], a: Result<usize, Refusal>) {
    after(text, words::number(a));
    after(b" ", words::value(a) as u64);
}

pub fn shift(a: Result<i64, Refusal>) {
    match a {
        Ok(z) => {
            let sign: &[u8] = if z < 0 { b" 0 -" } else { b" 0 " };
            after(sign, z.unsigned_abs());
        }
        Err(x) => answer(b" ", Err(x)),
    }
}

pub fn back(a: Result<Origin, Refusal>) {
    match a {
        Ok(Origin::Base(s)) => after(b", 0 base ", s as u64),
        Ok(Origin::Added(i)) => after(b", 0 entry ", i as u64),
        Err(x) => answer(b", ", Err(x)),
    }
}

// The part that a view hands back: of the base column or of the buffer, and its length.
pub fn part(p: Option<Seen>) {
    match p {
        Some(Seen::Base(k)) => after(b" | base ", k as u64),
        Some(Seen::Front(k)) => after(b" | front ", k as u64),
        None => after(b" | base ", 0),
    }
}

// The numbers of a slice, of a long one the first and the last.
pub fn shown(xs: &[u64]) {
    let n = xs.len();
    if 100 < n {
        after(b" | ", xs[0]);
        return after(b" .. ", xs[n - 1]);
    }
    io::write_all(1, b" |");
    for x in xs {
        after(b" ", *x);
    }
}

// How many numbers of a slice a call altered, the index of the last, and what it is.
fn altered(was: &[u64], xs: &[u64]) {
    let mut count: u64 = 0;
    let mut last = None;
    for (i, x) in xs.iter().enumerate() {
        if get(was, i) != *x {
            count += 1;
            last = Some((i, *x));
        }
    }
    after(b" | altered ", count);
    if let Some((i, x)) = last {
        after(b", last ", i as u64);
        after(b" is ", x);
    }
}

// What a call left of a slice: all numbers, or of a long one what it altered.
pub fn left(was: &[u64], xs: &[u64]) {
    if 100 < xs.len() {
        altered(was, xs);
    } else {
        shown(xs);
    }
}
