// One row in words.
ghost use Rattle.inspect.specs.Words.{assertion_line, entry_line, inclusion_line, key_line, pairs_words};
ghost use Rattle.std.specs.Prelude.{Some};

use kb::axioms::{Assertion, Inclusion, Key, RolePairs};
use kb::lexicon::Entry;
use std::fmt::{self, Display};

// A row behind its number; it is printed as one line.
#[derive(Clone, Copy)]
pub(crate) struct Numbered<T>(pub u16, pub T);

impl fmt::Display for Numbered<Entry> {
    ghost output = { λ row. Some (entry_line row.0 row.1) };

    fn fmt<W: fmt::Write>(&self, f: &mut fmt::Formatter<W>) -> fmt::Result {
        let k = self.0;
        match self.1 {
            Entry::Top => write!(f, "entry {k}: TOP\n"),
            Entry::Name => write!(f, "entry {k}: NAME\n"),
            Entry::Both(c, d) => write!(
                f,
                "entry {k}: BOTH of concept {} and concept {}\n",
                c.0, d.0
            ),
            Entry::Some(r, c) => write!(f, "entry {k}: SOME of role {} and concept {}\n", r.0, c.0),
            Entry::Unlisted(kind) => write!(f, "entry {k}: unlisted kind {kind}\n"),
        }
    }
}

impl fmt::Display for Numbered<Assertion> {
    ghost output = { λ row. Some (assertion_line row.0 row.1) };

    fn fmt<W: fmt::Write>(&self, f: &mut fmt::Formatter<W>) -> fmt::Result {
        let k = self.0;
        match self.1 {
            Assertion::Is(c, x) => write!(
                f,
                "assertion {k}: concept {} of individual {}\n",
                c.0, x.0
            ),
            Assertion::Joins(r, x, y) => write!(
                f,
                "assertion {k}: role {} from individual {} to individual {}\n",
                r.0, x.0, y.0
            ),
            Assertion::Same(x, y) => write!(
                f,
                "assertion {k}: individual {} same as individual {}\n",
                x.0, y.0
            ),
            Assertion::Different(x, y) => write!(
                f,
                "assertion {k}: individual {} different from individual {}\n",
                x.0, y.0
            ),
            Assertion::Unlisted(kind) => write!(f, "assertion {k}: unlisted kind {kind}\n"),
        }
    }
}

impl fmt::Display for Numbered<Inclusion> {
    ghost output = { λ row. Some (inclusion_line row.0 row.1) };

    fn fmt<W: fmt::Write>(&self, f: &mut fmt::Formatter<W>) -> fmt::Result {
        let Numbered(k, inclusion) = *self;
        write!(
            f,
            "inclusion {k}: concept {} in concept {}\n",
            inclusion.sub.0, inclusion.sup.0
        )
    }
}

// The pairs of a key, one after the other.
#[derive(Clone, Copy)]
struct Pairs(RolePairs);

impl fmt::Display for Pairs {
    ghost output = { λ pairs. Some (pairs_words pairs.0) };

    fn fmt<W: fmt::Write>(&self, f: &mut fmt::Formatter<W>) -> fmt::Result {
        let pairs = self.0.list();
        for pair in pairs.as_slice() {
            write!(f, ", roles {} and {}", pair.left.0, pair.right.0)?;
        }
        Ok(())
    }
}

impl fmt::Display for Numbered<Key> {
    ghost output = { λ row. Some (key_line row.0 row.1) };

    fn fmt<W: fmt::Write>(&self, f: &mut fmt::Formatter<W>) -> fmt::Result {
        let k = self.0;
        match self.1 {
            Key::Link(c, d, pairs) => {
                write!(f, "key {k}: concepts {} and {}", c.0, d.0)?;
                Pairs(pairs).fmt(f)?;
                write!(f, "\n")
            }
            Key::Unlisted(count) => write!(f, "key {k}: unlisted count of pairs {count}\n"),
        }
    }
}
