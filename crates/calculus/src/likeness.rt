// Which rows of a ledger count as alike: concept rows by their concept, same and different rows by their kind, role rows and
// pending sides by all they hold.
ghost use Rattle.calculus.specs.Likeness.{concept_rows_alike, concept_rows_reflexive, pair_rows_alike, pair_rows_reflexive, pending_rows_alike, pending_rows_reflexive, role_rows_alike, role_rows_reflexive};

use crate::row_kinds::{ConceptRow, PairRow, PendingRow, RoleRow};
use ledger::Alike;

impl Alike for ConceptRow {
    ghost alike = { concept_rows_alike };

    ghost reflexive = { concept_rows_reflexive };

    fn is_alike(&self, other: &ConceptRow) -> bool {
        self.concept == other.concept
    }
}

impl Alike for RoleRow {
    ghost alike = { role_rows_alike };

    ghost reflexive = { role_rows_reflexive };

    fn is_alike(&self, other: &RoleRow) -> bool {
        self == other
    }
}

impl Alike for PairRow {
    ghost alike = { pair_rows_alike };

    ghost reflexive = { pair_rows_reflexive };

    fn is_alike(&self, other: &PairRow) -> bool {
        matches!(self, PairRow::Same(..)) == matches!(other, PairRow::Same(..))
    }
}

impl Alike for PendingRow {
    ghost alike = { pending_rows_alike };

    ghost reflexive = { pending_rows_reflexive };

    fn is_alike(&self, other: &PendingRow) -> bool {
        self == other
    }
}
