// When a row is in range: it is of a listed kind, and names only what the base has. Measured by the base's counts alone.
ghost use Rattle.kb.specs.Range.{assertion_in_range, concept_in_range, entry_in_range, inclusion_in_range, individual_in_range, key_in_range, pair_in_range, pairs_in_range, role_in_range};
ghost use Rattle.std.specs.Prelude.{◌≡◌};

use crate::axioms::{Assertion, Inclusion, Key, RolePair, RolePairs};
use crate::counts::Counts;
use crate::lexicon::Entry;
use crate::names::{Concept, Individual, Role};

impl Counts {
    /// Whether the base has the concept: one of an entry of the lexicon.
    pub fn has_concept(&self, c: Concept) -> bool
        ensures { result ≡ concept_in_range self.now c }
    {
        c.entry_number() < usize::from(self.entries)
    }

    /// Whether the base has the role.
    pub fn has_role(&self, r: Role) -> bool
        ensures { result ≡ role_in_range self.now r }
    {
        r.0 < self.roles
    }

    fn has_individual(&self, x: Individual) -> bool
        ensures { result ≡ individual_in_range self.now x }
    {
        x.0 < self.individuals
    }

    fn has_pair(&self, p: RolePair) -> bool
        ensures { result ≡ pair_in_range self.now p }
    {
        self.has_role(p.left) && self.has_role(p.right)
    }

    fn has_pairs(&self, pairs: RolePairs) -> bool
        ensures { result ≡ pairs_in_range self.now pairs }
    {
        pairs.list().iter().all(|p| self.has_pair(*p))
    }

    pub(crate) fn has_entry(&self, k: usize, e: Entry) -> bool
        ensures { result ≡ entry_in_range self.now k e }
    {
        match e {
            Entry::Top => k == 0,
            Entry::Name => k != 0,
            Entry::Both(c, d) => c.entry_number() < k && d.entry_number() < k,
            Entry::Some(r, c) => self.has_role(r) && c.entry_number() < k,
            Entry::Unlisted(_) => false,
        }
    }

    pub(crate) fn has_assertion(&self, a: Assertion) -> bool
        ensures { result ≡ assertion_in_range self.now a }
    {
        match a {
            Assertion::Is(c, x) => self.has_concept(c) && self.has_individual(x),
            Assertion::Joins(r, x, y) => self.has_role(r)
                && self.has_individual(x)
                && self.has_individual(y),
            Assertion::Same(x, y) => self.has_individual(x) && self.has_individual(y),
            Assertion::Different(x, y) => self.has_individual(x) && self.has_individual(y),
            Assertion::Unlisted(_) => false,
        }
    }

    pub(crate) fn has_inclusion(&self, i: Inclusion) -> bool
        ensures { result ≡ inclusion_in_range self.now i }
    {
        self.has_concept(i.sub) && self.has_concept(i.sup)
    }

    pub(crate) fn has_key(&self, key: Key) -> bool
        ensures { result ≡ key_in_range self.now key }
    {
        match key {
            Key::Link(c, d, pairs) => self.has_concept(c)
                && self.has_concept(d)
                && self.has_pairs(pairs),
            Key::Unlisted(_) => false,
        }
    }
}
