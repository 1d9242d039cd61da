// The calls on a case: a letter names the call; the first list has its numbers, the second the slice that it is lent to
// alter or to look at, the others what else it is lent.
use numbers::list;

// The numbers of a call, named as those of change.
#[derive(Clone, Copy)]
struct Args {
    c: usize,
    m: usize,
    r: usize,
    j: usize,
    v: u64,
}

// Where a row stands, and what stands there.
fn place(a: Args, layer: &[u64]) {
    say::shift(position::shift(a.c, a.m, a.r, layer, a.j));
    say::answer(b", ", position::row(a.c, a.m, a.r, layer, a.j));
    say::back(back::back(a.c, a.m, a.r, layer, a.j));
}

// After a read, what the viewers hand back.
fn view<'a>(a: Args, out: &'a [u64], layer: &[u64], base: &'a [u64]) {
    say::part(view::view_part(a.c, a.m, layer, base, a.r, out.len()));
    say::shown(view::view(a.c, a.m, layer, base, a.r, out));
}

// The calls, with the lists of their cases:
#[derive(Clone, Copy)]
pub enum Call {
    // fit c m ; layer ; keys
    Fit,
    // place c n m s ; layer
    Place,
    // read c m j ; buffer ; layer ; column
    Read,
    // add c m ; layer ; keys ; row
    Add,
    // strike c m r ; layer ; keys
    Strike,
    // change c m r j v ; layer ; keys
    Change,
    // number c n m r g ; layer ; table
    Renumber,
    // combine c mr mw ; buffer ; keys ; R ; W
    Combine,
    // move c mx my ; X ; keys ; Y
    Move,
}

impl From<&[u8]> for Call {
    // The first letter tells the calls apart, but of change and combine the second.
    fn from(case: &[u8]) -> Self {
        let letter = match case {
            [b'c', second, ..] => *second,
            [first, _, ..] => *first,
            _ => 0,
        };
        match letter {
            b'f' => Call::Fit,
            b'p' => Call::Place,
            b'r' => Call::Read,
            b'a' => Call::Add,
            b's' => Call::Strike,
            b'h' => Call::Change,
            b'n' => Call::Renumber,
            b'o' => Call::Combine,
            _ => Call::Move,
        }
    }
}

// The call, and what it answered and left.
fn on(call: Call, a: Args, was: &[u64], lent: &mut [u64], one: &[u64], two: &[u64], three: &[u64]) {
    let answer = match call {
        Call::Fit => return say::answer(b" ", fit::fit(a.c, a.m, lent, one)),
        Call::Place => return place(a, lent),
        Call::Read => read::read(a.c, a.m, one, two, a.r, lent),
        Call::Add => add::add(a.c, a.m, lent, one, two),
        Call::Strike => strike::strike(a.c, a.m, lent, one, a.r),
        Call::Change => change::change(a.c, a.m, lent, one, a.r, a.j, a.v),
        Call::Renumber => renumber::renumber(a.c, a.m, a.r, lent, one, a.j, a.v),
        Call::Combine => combine::combine(a.c, one, a.m, two, a.r, three, lent),
        Call::Move => pass::move_past(a.c, one, a.m, lent, a.r, two),
    };
    say::answer(b" ", answer);
    say::left(was, lent);
    if matches!(call, Call::Read) {
        view(a, lent, one, two);
    }
}

fn args_of(xs: &[u64; 16384]) -> Args {
    Args {
        c: xs[8] as usize,
        m: xs[9] as usize,
        r: xs[10] as usize,
        j: xs[11] as usize,
        v: xs[12],
    }
}

// The call on the lists of a case, the second in a slice of its own.
fn on_lists(call: Call, a: Args, xs: &[u64]) {
    let was = list(xs, 0, 1);
    let mut space = [0u64; 8192];
    if was.len() <= 8192 {
        let z: usize = 0;
        let e = run::copy_in(was, &mut space, 0);
        let one = list(xs, 1, 2);
        let two = list(xs, 2, 3);
        let three = list(xs, 3, 4);
        on(call, a, was, &mut space[z..e], one, two, three);
    }
}

// Runs a case, and prints what it answers.
pub fn run(case: &[u8]) {
    let mut xs = [0u64; 16384];
    numbers::read(case, &mut xs);
    on_lists(Call::from(case), args_of(&xs), &xs);
}
