// The edges of a layer's file: every length from 0 to 40 bytes, each number of the trailer at and past its limits, notes at theirs, and 512
// entries of eight columns. A line has the file's length; then what check, columns, rows, note and load answer; then three numbers of load's slice.
#![tactic(auto)]

use words::{Entry, Refusal};

fn number(x: u64) {
    io::write_all(1, b" ");
    io::print_decimal(1, x);
}

fn answer(a: Result<usize, Refusal>) {
    number(words::number(a));
    number(words::value(a) as u64);
}

fn told(file: &[u8]) {
    io::print_decimal(1, file.len() as u64);
    io::write_all(1, b":");
    answer(probe::check(file));
    number(file::columns(file));
    number(file::rows(file));
    number(file::note(file) as u64);
    let mut layer = [9u64; 5121];
    answer(file::load(file, &mut layer));
    number(layer[1]);
    number(layer[5119]);
    number(layer[5120]);
    io::write_all(1, b"\n");
}

// The bytes from a up to e, or none where there are not so many.
fn part<'a>(file: &'a [u8], a: usize, e: usize) -> &'a [u8] {
    if a <= e {
        if e <= file.len() {
            return &file[a..e];
        }
    }
    let z: usize = 0;
    &file[z..z]
}

fn put(file: &mut [u8], at: usize, v: u64) {
    if 8 <= file.len() {
        if at <= file.len() - 8 {
            jot::put_number(file, at, v);
        }
    }
}

fn set(layer: &mut [u64], i: usize, v: u64) {
    if i < layer.len() {
        layer[i] = v;
    }
}

// Saves a layer from byte `at` on.
fn save_at(c: usize, n: usize, m: usize, layer: &[u64], at: usize, file: &mut [u8]) {
    let e = file.len();
    if e < at {
        return;
    }
    answer(save::save(c, n, m, layer, &mut file[at..e]));
    io::write_all(1, b"\n");
}

// The last bytes of 64, from none to 40.
fn last_bytes(file: &[u8]) {
    for len in 0..41 {
        told(part(file, 64 - len, 64));
    }
}

// An empty layer's file, behind 32 bytes.
fn lengths() {
    let mut file = [7u8; 64];
    let none = [0u64; 0];
    save_at(1, 0, 0, &none, 32, &mut file);
    last_bytes(&file);
}

// The number from byte `at` on of an empty layer's trailer is v.
fn trailer(at: usize, v: u64) {
    let mut file = [0u8; 32];
    put(&mut file, 0, 32);
    put(&mut file, 16, 8);
    put(&mut file, 24, 4096);
    put(&mut file, at, v);
    told(&file);
}

// At 0, at its limit, one past, 2^63 and 2^64 - 1.
fn limits(at: usize, limit: u64, past: u64) {
    trailer(at, 0);
    trailer(at, limit);
    trailer(at, past);
    trailer(at, 9223372036854775808);
    trailer(at, 18446744073709551615);
}

// Every entry's kind is the add's.
fn adds(layer: &mut [u64]) {
    for i in 0..512 {
        set(layer, 10 * i + 1, Entry::ADD);
    }
}

// 512 entries of eight columns, behind notes.
fn notes() {
    let mut layer = [0u64; 5120];
    adds(&mut layer);
    let mut file = [7u8; 41249];
    save_at(8, 3584, 512, &layer, 257, &mut file);
    told(part(&file, 257, 41249));
    told(part(&file, 256, 41249));
    told(part(&file, 2, 41249));
    told(part(&file, 1, 41249));
    told(part(&file, 0, 41249));
    told(part(&file, 258, 41249));
    told(part(&file, 257, 41248));
}

fn main() {
    lengths();
    limits(0, 32, 33);
    limits(8, 512, 513);
    limits(16, 8, 9);
    limits(24, 4096, 4097);
    notes();
}
