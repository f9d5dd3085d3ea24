// The rows of a branch over a base, with the heads of its individuals.
ghost use Rattle.calculus.specs.Branches.{concept_row_holds, equal, head_of, held, pair_row_holds, role_row_holds};
ghost use Rattle.lookup.specs.Heads.{head_in};
ghost use Rattle.std.specs.List.{list_all, list_any};
ghost use Rattle.std.specs.Prelude.{◌≡◌, ℕ, ◌≤◌, length, ⊤};

use crate::heads;
use calculus::row_kinds::{ConceptRow, PairRow, RoleRow};
use kb::axioms::Assertion;
use kb::base::Base;
use kb::names::{Concept, Individual, Role};
use std::alloc::AllocError;

/// A base, the rows of a branch over it, and the head of each individual of the branch.
pub struct View<'h, 'a, B> {
    pub base: &'a B,
    pub(crate) heads: &'h [u16],
    pub concepts: &'a [ConceptRow],
    pub roles: &'a [RoleRow],
    pub pairs: &'a [PairRow],
    // A number beyond the heads is its own head.
    ghost known: { (x : ℕ) → head_of pairs.now x ≡ head_in heads.now x },
    ghost few: { length heads.now ≤ 65535 },
}

// By hand: a derive would ask that the base be `Copy` too.
impl<B> Clone for View<'_, '_, B> {
    ghost is_clone = { λ v w. w ≡ v };

    ghost is_infallible = { λ _. ⊤ };

    fn clone(&self) -> Result<Self, AllocError> {
        Ok(*self)
    }
}

impl<B> Copy for View<'_, '_, B> {}

impl<'h, 'a, B> View<'h, 'a, B> {
    ghost use Rattle.lookup.specs.Views.{branch_in, branch_over};

    /// The view of the rows given, with as many individuals as numbers are lent; of nothing, where there are more than 65,535
    /// numbers, or a same or different row names an individual that is not below their count.
    #[tactic(auto, unfolding(calculus::specs::Branches::head_of))]
    pub fn over(
        base: &'a B,
        heads: &'h mut [u16],
        concepts: &'a [ConceptRow],
        roles: &'a [RoleRow],
        pairs: &'a [PairRow],
    ) -> View<'h, 'a, B>
        ensures base { result.base.now ≡ base.now }
        ensures branch { branch_in result ≡ branch_over (length heads.old) concepts.now roles.now pairs.now }
    {
        if heads.len() > 65535 || !heads::all_named(heads.len(), pairs) {
            return View {
                base,
                heads: &[],
                concepts: &[],
                roles: &[],
                pairs: &[],
            };
        }
        heads::find_heads(heads, pairs);
        View {
            base,
            heads,
            concepts,
            roles,
            pairs,
        }
    }

    /// The number of individuals.
    pub fn individuals(&self) -> u16
        ensures { result ≡ (branch_in self.now).individuals }
    {
        self.heads.len() as u16
    }

    /// Whether two individuals are equal.
    pub fn equal(&self, x: Individual, y: Individual) -> bool
        ensures { result ≡ equal (branch_in self.now).pairs x y }
    {
        heads::head_of(self.heads, x) == heads::head_of(self.heads, y)
    }
}

impl<B: Base> View<'_, '_, B> {
    ghost use Rattle.lookup.specs.Views.{branch_in};

    // Whether some row holds "c of x".
    fn some_concept_row(&self, c: Concept, x: Individual) -> bool
        ensures { result ≡ list_any (concept_row_holds (B.meaning self.now.base.now) (branch_in self.now) c x) self.now.concepts.now }
    {
        self.concepts
            .iter()
            .any(|row| row.concept == c && self.equal(row.individual, x))
    }

    // Whether some row holds "role from x to y".
    fn some_role_row(&self, role: Role, x: Individual, y: Individual) -> bool
        ensures { result ≡ list_any (role_row_holds (B.meaning self.now.base.now) (branch_in self.now) role x y) self.now.roles.now }
    {
        self.roles.iter().any(|row| row.role == role
            && self.equal(row.from, x)
            && self.equal(row.to, y))
    }

    // Whether some row holds "x different from y", in either order.
    fn some_pair_row(&self, x: Individual, y: Individual) -> bool
        ensures { result ≡ list_any (pair_row_holds (B.meaning self.now.base.now) (branch_in self.now) x y) self.now.pairs.now }
    {
        self.pairs.iter().any(|row| match *row {
            PairRow::Same(_, _) => false,
            PairRow::Different(v, w) => {
                (self.equal(v, x) && self.equal(w, y)) || (self.equal(v, y) && self.equal(w, x))
            }
        })
    }

    /// Whether a fact is held.
    pub fn held(&self, fact: &Assertion) -> bool
        ensures { result ≡ held (B.meaning self.now.base.now) (branch_in self.now) fact.now }
    {
        match *fact {
            Assertion::Is(c, x) => c.0 == 0 || self.some_concept_row(c, x),
            Assertion::Joins(role, x, y) => self.some_role_row(role, x, y),
            Assertion::Same(x, y) => self.equal(x, y),
            Assertion::Different(x, y) => self.some_pair_row(x, y),
            Assertion::Unlisted(_) => false,
        }
    }

    /// Whether every fact is held.
    pub fn all_held(&self, facts: &[Assertion]) -> bool
        ensures { result ≡ list_all (held (B.meaning self.now.base.now) (branch_in self.now)) facts.now }
    {
        facts.iter().all(|fact| self.held(fact))
    }
}
