// The header of a case file and the rows of a base as plain numbers. A number that a row does not need is 0.
ghost use Rattle.casewriter.specs.Encoding.{header_numbers};
ghost use Rattle.kb.specs.Numbers.{assertion_numbers, entry_numbers, inclusion_numbers, key_numbers};
ghost use Rattle.std.specs.Prelude.{◌≡◌};

use kb::axioms::{Assertion, Inclusion, Key};
use kb::counts::Counts;
use kb::lexicon::Entry;

// The numbers of a record, as a file has them; a type of this crate, as `From` between types of other crates wants.
#[derive(Clone, Copy)]
pub(crate) struct Record<const N: usize>(pub(crate) [u16; N]);

impl From<Counts> for Record<6> {
    ghost from_gives = { λ n r. r.0 ≡ header_numbers n };

    fn from(counts: Counts) -> Record<6> {
        Record([
            counts.individuals,
            counts.roles,
            counts.entries,
            counts.assertions,
            counts.inclusions,
            counts.keys,
        ])
    }
}

impl From<Entry> for Record<3> {
    ghost from_gives = { λ e r. r.0 ≡ entry_numbers e };

    fn from(e: Entry) -> Record<3> {
        Record(match e {
            Entry::Top => [0, 0, 0],
            Entry::Name => [1, 0, 0],
            Entry::Both(c, d) => [2, c.0, d.0],
            Entry::Some(r, c) => [3, r.0, c.0],
            Entry::Unlisted(kind) => [kind, 0, 0],
        })
    }
}

impl From<Assertion> for Record<4> {
    ghost from_gives = { λ a r. r.0 ≡ assertion_numbers a };

    fn from(a: Assertion) -> Record<4> {
        Record(match a {
            Assertion::Is(c, x) => [0, c.0, x.0, 0],
            Assertion::Joins(r, x, y) => [1, r.0, x.0, y.0],
            Assertion::Same(x, y) => [2, x.0, y.0, 0],
            Assertion::Different(x, y) => [3, x.0, y.0, 0],
            Assertion::Unlisted(kind) => [kind, 0, 0, 0],
        })
    }
}

impl From<Inclusion> for Record<2> {
    ghost from_gives = { λ i r. r.0 ≡ inclusion_numbers i };

    fn from(i: Inclusion) -> Record<2> {
        Record([i.sub.0, i.sup.0])
    }
}

impl From<Key> for Record<11> {
    ghost from_gives = { λ key r. r.0 ≡ key_numbers key };

    fn from(key: Key) -> Record<11> {
        match key {
            Key::Link(c, d, pairs) => {
                let list = pairs.list();
                let pair = |k: usize| list.get(k).copied().unwrap_or_default();
                let (p, q, s, t) = (pair(0), pair(1), pair(2), pair(3));
                Record([
                    c.0,
                    d.0,
                    list.len() as u16,
                    p.left.0,
                    p.right.0,
                    q.left.0,
                    q.right.0,
                    s.left.0,
                    s.right.0,
                    t.left.0,
                    t.right.0,
                ])
            }
            Key::Unlisted(count) => Record([0, 0, count, 0, 0, 0, 0, 0, 0, 0, 0]),
        }
    }
}
