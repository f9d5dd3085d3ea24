// How the numbers of a record say a row.
ghost use Rattle.casefile.specs.Layout.{header_counts};
ghost use Rattle.casefile.specs.Records.{read_assertion, read_entry, read_inclusion, read_key};
ghost use Rattle.std.specs.Prelude.{◌≡◌};

use kb::axioms::{Assertion, Inclusion, Key, RolePair, RolePairs};
use kb::counts::Counts;
use kb::lexicon::Entry;
use kb::names::{Concept, Individual, Role};

// The numbers of a record, as they stand in the file; a type of this crate, since `From` between types of other crates is
// not allowed.
#[derive(Clone, Copy)]
pub(crate) struct Record<const N: usize>(pub(crate) [u16; N]);

impl From<Record<6>> for Counts {
    ghost from_gives = { λ header counts. counts ≡ header_counts header.0 };

    fn from(Record(numbers): Record<6>) -> Counts {
        let [individuals, roles, entries, assertions, inclusions, keys] = numbers;
        Counts {
            individuals,
            roles,
            entries,
            assertions,
            inclusions,
            keys,
        }
    }
}

// The file format numbers the kinds of entry and of assertion (docs/FORMATS.md).
impl From<Record<3>> for Entry {
    ghost from_gives = { λ r row. row ≡ read_entry r.0 };

    fn from(Record(numbers): Record<3>) -> Entry {
        match numbers {
            [0, _, _] => Entry::Top,
            [1, _, _] => Entry::Name,
            [2, c, d] => Entry::Both(Concept(c), Concept(d)),
            [3, r, c] => Entry::Some(Role(r), Concept(c)),
            [kind, _, _] => Entry::Unlisted(kind),
        }
    }
}

impl From<Record<4>> for Assertion {
    ghost from_gives = { λ r row. row ≡ read_assertion r.0 };

    fn from(Record(numbers): Record<4>) -> Assertion {
        match numbers {
            [0, c, x, _] => Assertion::Is(Concept(c), Individual(x)),
            [1, r, x, y] => Assertion::Joins(Role(r), Individual(x), Individual(y)),
            [2, x, y, _] => Assertion::Same(Individual(x), Individual(y)),
            [3, x, y, _] => Assertion::Different(Individual(x), Individual(y)),
            [kind, _, _, _] => Assertion::Unlisted(kind),
        }
    }
}

impl From<Record<2>> for Inclusion {
    ghost from_gives = { λ r row. row ≡ read_inclusion r.0 };

    fn from(Record(numbers): Record<2>) -> Inclusion {
        let [sub, sup] = numbers;
        Inclusion {
            sub: Concept(sub),
            sup: Concept(sup),
        }
    }
}

// The third number of a key says how many of its pairs count (docs/FORMATS.md).
impl From<Record<11>> for Key {
    ghost from_gives = { λ r row. row ≡ read_key r.0 };

    fn from(Record(numbers): Record<11>) -> Key {
        let pair = |at: usize| RolePair {
            left: Role(numbers[at]),
            right: Role(numbers[at + 1]),
        };
        let pairs = match numbers[2] {
            1 => RolePairs::One(pair(3)),
            2 => RolePairs::Two(pair(3), pair(5)),
            3 => RolePairs::Three(pair(3), pair(5), pair(7)),
            4 => RolePairs::Four(pair(3), pair(5), pair(7), pair(9)),
            count => return Key::Unlisted(count),
        };
        Key::Link(Concept(numbers[0]), Concept(numbers[1]), pairs)
    }
}
