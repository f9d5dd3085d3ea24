// Two kinds of row of a sheet, made from numbers: concept rows, alike by their concept, and role rows, alike by all they hold.
use calculus::row_kinds::{ConceptRow, RoleRow};
use kb::names::{Concept, Individual, Role};

/// A row that is made from a number and tells it.
pub trait Numbered {
    fn nth(n: u16) -> Self;

    fn number(&self) -> u16;
}

/// Every fourth has the same concept, and so is alike.
impl Numbered for ConceptRow {
    fn nth(n: u16) -> ConceptRow {
        ConceptRow {
            concept: Concept(n % 4),
            individual: Individual(n),
        }
    }

    fn number(&self) -> u16 {
        self.individual.0
    }
}

/// No two numbers make rows that are alike.
impl Numbered for RoleRow {
    fn nth(n: u16) -> RoleRow {
        RoleRow {
            role: Role(n % 4),
            from: Individual(n),
            to: Individual(n),
        }
    }

    fn number(&self) -> u16 {
        self.from.0
    }
}
