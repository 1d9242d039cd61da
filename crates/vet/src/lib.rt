// Form and fit in one pass over a layer.
#![tactic(auto)]

ghost use Rattle.vet.specs.Vetted.{Vetted};

use entry::Stored;
use head::Head;
use scan::Scan;
use words::Entry;

// Form and fit in one pass over the entries, up to the first at fault with either.
// The head before an entry is kept twice: before the first stands, as it were, for form an add, which anything may follow,
// and for fit a change, so that an add of key 0 may come first.
pub fn form_and_fit(layer: &Stored, keys: &[u64]) -> Scan
    ensures { let l = layer.now in
        Vetted l.c l.m l.numbers.now keys.now result.place result.adds result.strikes }
{
    let n = keys.len();
    let mut seen = Scan::first();
    let mut form = Head {
        pos: 0,
        kind: Entry::ADD,
        first: 0,
    };
    let mut fit = Head {
        pos: 0,
        kind: 0,
        first: 0,
    };
    for i in 0..layer.m {
        let e = layer.head(i);
        if !(scan::alone_good(n, layer, i) & scan::follows(form, e)) {
            return seen;
        }
        if !suit::fits_after(layer, i, keys, fit) {
            return seen;
        }
        seen = seen.with(e.kind);
        form = e;
        fit = e;
    }
    seen
}
