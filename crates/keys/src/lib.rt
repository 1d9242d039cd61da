// A key column: whether it ascends, and how many of its keys lie below another.
#![tactic(auto)]

ghost use Rattle.std.specs.Prelude.{◌≡◌, true, ◌&&◌, ◌+◌, ◌<◌, length};
ghost use Rattle.order.specs.Lists.{ascending};
ghost use Rattle.model.specs.Fit.{keys_below};
ghost use Rattle.keys.specs.Rising.{ascend_from};

// Five keys from number i on ascend: all from there on do if those from the last of the five on do.
fn five_ascend(keys: &[u64], i: usize) -> bool
    requires { i + 4 < length keys.now }
    ensures { ascend_from keys.now i ≡ result && ascend_from keys.now (i + 4) }
{
    let a = keys[i];
    let b = keys[i + 1];
    let d = keys[i + 2];
    let e = keys[i + 3];
    let f = keys[i + 4];
    (a < b) & ((b < d) & ((d < e) & (e < f)))
}

// Nine keys, likewise.
fn nine_ascend(keys: &[u64], i: usize) -> bool
    requires { i + 8 < length keys.now }
    ensures { ascend_from keys.now i ≡ result && ascend_from keys.now (i + 8) }
{
    let low = five_ascend(keys, i);
    let high = five_ascend(keys, i + 4);
    low & high
}

// The keys from number `from` on ascend.
fn ascend_from(keys: &[u64], from: usize) -> bool
    requires { from < length keys.now }
    ensures { result ≡ ascend_from keys.now from }
{
    for i in from..keys.len() - 1 {
        if keys[i + 1] <= keys[i] {
            return false;
        }
    }
    true
}

// The keys are strictly ascending: looked at by eights, then the last few one by one.
pub fn ascend(keys: &[u64]) -> bool
    ensures { result ≡ ascending keys.now }
{
    if keys.len() == 0 {
        return true;
    }
    let eights = (keys.len() - 1) / 8;
    for k in 0..eights {
        if !nine_ascend(keys, 8 * k) {
            return false;
        }
    }
    ascend_from(keys, 8 * eights)
}

// How many of the keys, which ascend, lie below k.
pub fn below(k: u64, keys: &[u64]) -> usize
    requires { ascending keys.now ≡ true }
    ensures { result ≡ keys_below k keys.now }
{
    keys.partition_point(|x| *x < k)
}
