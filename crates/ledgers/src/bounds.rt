// Whether every row names only what the base and the sheet have.
ghost use Rattle.calculus.specs.Table.{below};
ghost use Rattle.calculus.specs.States.{concept_row_fits, pair_row_fits, pending_row_fits, role_row_fits, rows_fit};
ghost use Rattle.ledgers.specs.Contents.{ledgers_of};
ghost use Rattle.std.specs.List.{list_all};
ghost use Rattle.std.specs.Prelude.{◌≡◌};

use crate::Ledgers;
use calculus::lengths::Lengths;
use calculus::row_kinds::{ConceptRow, PairRow, PendingRow, RoleRow};
use kb::counts::Counts;
use kb::names::Individual;

/// What there is to be named: what a base has, the individuals of a sheet, and its rows.
#[derive(Clone, Copy)]
struct Bounds {
    base: Counts,
    individuals: u16,
    rows: Lengths,
}

impl Bounds {
    // Whether an individual is the sheet's.
    fn has(&self, x: Individual) -> bool
        ensures { result ≡ below self.now.individuals x }
    {
        x.0 < self.individuals
    }

    fn has_concept_rows(&self, rows: &[ConceptRow]) -> bool
        ensures { result ≡ list_all (concept_row_fits self.now.base self.now.individuals) rows.now }
    {
        rows.iter().all(|row| self.base.has_concept(row.concept) && self.has(row.individual))
    }

    fn has_role_rows(&self, rows: &[RoleRow]) -> bool
        ensures { result ≡ list_all (role_row_fits self.now.base self.now.individuals) rows.now }
    {
        rows.iter().all(|row| self.base.has_role(row.role)
            && self.has(row.from)
            && self.has(row.to))
    }

    fn has_pair_rows(&self, rows: &[PairRow]) -> bool
        ensures { result ≡ list_all (pair_row_fits self.now.base self.now.individuals) rows.now }
    {
        rows.iter().all(|row| match *row {
            PairRow::Same(x, y) | PairRow::Different(x, y) => self.has(x) && self.has(y),
        })
    }

    fn has_pending_rows(&self, rows: &[PendingRow]) -> bool
        ensures { result ≡ list_all (pending_row_fits self.now.base self.now.individuals self.now.rows) rows.now }
    {
        rows.iter().all(|row| self.base.has_concept(row.side.concept)
            && row.side.individual.0 < row.individuals
            && self.base.individuals <= row.individuals
            && row.individuals <= self.individuals
            && row.concepts <= self.rows.concepts
            && row.roles <= self.rows.roles
            && row.pairs <= self.rows.pairs)
    }
}

impl<'a> Ledgers<'a> {
    /// Whether every row names only concepts and roles of a base with these counts and individuals below the number given, and
    /// every pending row notes no more than there is.
    pub fn rows_fit(&self, base: &Counts, individuals: u16) -> bool
        ensures { result ≡ rows_fit base.now individuals (ledgers_of self.now) }
    {
        let bounds = Bounds {
            base: *base,
            individuals,
            rows: self.row_counts(),
        };
        bounds.has_concept_rows(self.concepts.rows())
            && bounds.has_role_rows(self.roles.rows())
            && bounds.has_pair_rows(self.pairs.rows())
            && bounds.has_pending_rows(self.pending.rows())
    }
}
