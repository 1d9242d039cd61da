// The numbers of a case, in lists between semicolons. A list that ends in `*k` goes on until it has k numbers, by the
// difference between its two halves: `0 1 *4` is 0 1 2 3, and `5 7 5 8 *6` is 5 7 5 8 5 9.
#![tactic(auto)]

ghost use Rattle.std.specs.Prelude.{◌<◌, ◌≤◌, length};

// Number i of a slice, or 0 where it has none.
pub fn get(xs: &[u64], i: usize) -> u64 {
    xs.get(i).copied().unwrap_or(0)
}

// What stands at an index of a case: nothing to read, a number, the length of a list, the end of one.
#[derive(Clone, Copy)]
enum Token {
    Blank,
    Number(u64),
    Length(u64),
    End,
}

// A number's value with one digit more.
fn longer(v: u64, b: u8) -> u64 {
    v.wrapping_mul(10).wrapping_add(u64::from(b & 15))
}

// The value of the digits from an index on, after some whose value is v, and the index behind them.
fn digits(case: &[u8], from: usize, v: u64) -> (u64, usize)
    requires { from ≤ length case.now }
    ensures { from ≤ result.1 }
{
    let mut value = v;
    for i in from..case.len() {
        let b = case[i];
        if !b.is_ascii_digit() {
            return (value, i);
        }
        value = longer(value, b);
    }
    (value, case.len())
}

// The token at an index, and the index behind it.
fn token_at(case: &[u8], i: usize) -> (Token, usize)
    requires { i < length case.now }
    ensures { i < result.1 }
{
    let b = case[i];
    match b {
        b'0'..=b'9' => {
            let (value, end) = digits(case, i + 1, longer(0, b));
            (Token::Number(value), end)
        }
        b'*' => {
            let (length, end) = digits(case, i + 1, 0);
            (Token::Length(length), end)
        }
        b';' => (Token::End, i + 1),
        _ => (Token::Blank, i + 1),
    }
}

// Number i of a list that goes on, whose halves have w numbers.
fn going_on(xs: &[u64], i: usize, w: usize) -> u64 {
    if i < w {
        return 0;
    }
    let last = get(xs, i - w);
    if i - w < w {
        return last;
    }
    last.wrapping_add(last.wrapping_sub(get(xs, i - w - w)))
}

// Writes number i of a slice that has one; answers the next index.
fn put(xs: &mut [u64], i: usize, v: u64) -> usize {
    if i < xs.len() {
        xs[i] = v;
        return i + 1;
    }
    i
}

// Writes the numbers behind index n of a list that goes on until it has k, as far as the slice reaches; answers where they end.
fn go_on(xs: &mut [u64], start: usize, n: usize, k: u64) -> usize {
    if n < start {
        return n;
    }
    let w = (n - start) / 2;
    for i in n..xs.len() {
        if k <= (i - start) as u64 {
            return i;
        }
        xs[i] = going_on(xs, i, w);
    }
    n.max(xs.len())
}

// Reads the lists of a case, one behind the other from index 8 on; number k of the slice is where list k ends.
pub fn read(case: &[u8], xs: &mut [u64]) {
    let mut n: usize = 8;
    let mut start: usize = 8;
    let mut lists: usize = 0;
    let mut i: usize = 0;
    // No `for`: a token is as long as it is.
    while i < case.len() {
        let (token, end) = token_at(case, i);
        match token {
            Token::Blank => {}
            Token::Number(value) => {
                n = put(xs, n, value);
            }
            Token::Length(k) => {
                n = go_on(xs, start, n, k);
            }
            Token::End => {
                lists = put(xs, lists, n as u64);
                start = n;
            }
        }
        i = end;
    }
    put(xs, lists, n as u64);
}

// The numbers from a up to e, or none where there are not so many.
fn span(xs: &[u64], a: usize, e: usize) -> &[u64] {
    xs.get(a..e).unwrap_or(&[])
}

// The list that starts where list j ends, and ends where list k does.
pub fn list(xs: &[u64], j: usize, k: usize) -> &[u64] {
    span(xs, get(xs, j) as usize, get(xs, k) as usize)
}
