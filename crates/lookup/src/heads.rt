// The head of each individual, computed from the same rows into numbers that the host lends.
ghost use Rattle.calculus.specs.Branches.{head_of, merged};
ghost use Rattle.lookup.specs.Heads.{head_in, joined, joined_by, names_below};
ghost use Rattle.std.specs.Prelude.{◌≡◌, ℕ, ◌≤◌, true, length};
ghost use Rattle.std.specs.List.{list_all};

use calculus::row_kinds::PairRow;
use kb::names::Individual;

// The head of an individual; a number beyond the heads is its own.
pub(crate) fn head_of(heads: &[u16], x: Individual) -> u16
    ensures { result ≡ head_in heads.now x.0 }
{
    heads.get(usize::from(x.0)).copied().unwrap_or(x.0)
}

// Whether same and different rows name only individuals below a number.
pub(crate) fn all_named(count: usize, pairs: &[PairRow]) -> bool
    ensures { result ≡ list_all (names_below count) pairs.now }
{
    pairs.iter().all(|row| match *row {
        PairRow::Same(x, y) | PairRow::Different(x, y) => {
            usize::from(x.0) < count && usize::from(y.0) < count
        }
    })
}

// Each individual is its own head.
fn reset(heads: &mut [u16])
    requires { length heads.old ≤ 65535 }
    ensures { (x : ℕ) → head_in heads.new x ≡ x }
{
    for (i, head) in heads.iter_mut().enumerate() {
        *head = i as u16;
    }
}

// The head that was x, where those whose head was u or v get the smaller of the two.
fn merge(u: u16, v: u16, x: u16) -> u16
    ensures { result ≡ merged u v x }
{
    if x == u || x == v { u.min(v) } else { x }
}

// Gives the individuals of x and of y one head.
fn join(heads: &mut [u16], x: Individual, y: Individual)
    ensures { heads.new ≡ joined heads.old x y }
{
    let u = head_of(heads, x);
    let v = head_of(heads, y);
    for head in heads.iter_mut() {
        *head = merge(u, v, *head);
    }
}

// The same for a row; a different row changes nothing.
fn join_by(heads: &mut [u16], row: &PairRow)
    ensures { heads.new ≡ joined_by heads.old row.now }
{
    match *row {
        PairRow::Same(x, y) => join(heads, x, y),
        PairRow::Different(_, _) => {}
    }
}

// Writes the head of each individual; rows name no others.
#[tactic(auto, unfolding(calculus::specs::Branches::head_of))]
pub(crate) fn find_heads(heads: &mut [u16], pairs: &[PairRow])
    requires few { length heads.old ≤ 65535 }
    requires named { list_all (names_below (length heads.old)) pairs.now ≡ true }
    ensures { (x : ℕ) → head_of pairs.now x ≡ head_in heads.new x }
{
    reset(heads);
    for row in pairs {
        join_by(heads, row);
    }
}
