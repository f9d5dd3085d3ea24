// The four ledgers of a sheet, taken together: what they hold, whether there is room, writing a fact, noting a right side,
// and cutting back. Nothing of bases or of when a step is allowed belongs here.
#![tactic(auto)]

ghost use Rattle.calculus.specs.Playing.{cut_to, emptied, free, last_of, note as noted, noteable, room, write as written};
ghost use Rattle.calculus.specs.States.{row_counts, sizes_of};
ghost use Rattle.ledger.specs.Books.{book, unused};
ghost use Rattle.ledgers.specs.Contents.{ledgers_of};
ghost use Rattle.std.specs.Prelude.{◌≡◌};

use calculus::lengths::Lengths;
use calculus::row_kinds::{ConceptRow, PairRow, PendingRow, RoleRow};
use kb::axioms::Assertion;
use ledger::Ledger;

mod bounds;

/// Concept rows, role rows, same and different rows, and pending right sides, each in a lent slice.
#[derive(Drop)]
pub struct Ledgers<'a> {
    pub concepts: Ledger<'a, ConceptRow>,
    pub roles: Ledger<'a, RoleRow>,
    pub pairs: Ledger<'a, PairRow>,
    pub pending: Ledger<'a, PendingRow>,
}

impl<'a> Ledgers<'a> {
    /// Four ledgers without rows, over slots of any content.
    pub fn over(
        concepts: &'a mut [ConceptRow],
        roles: &'a mut [RoleRow],
        pairs: &'a mut [PairRow],
        pending: &'a mut [PendingRow],
    ) -> Ledgers<'a>
        ensures { ledgers_of result ≡ record { concepts = unused concepts.entry.now; roles = unused roles.old; pairs = unused pairs.old; pending = unused pending.old } }
    {
        Ledgers {
            concepts: Ledger::empty(concepts),
            roles: Ledger::empty(roles),
            pairs: Ledger::empty(pairs),
            pending: Ledger::empty(pending),
        }
    }

    /// How many places each ledger has.
    // The four are of four types, so that no list of them could be gone through, here and below.
    pub fn sizes(&self) -> Lengths
        ensures { result ≡ sizes_of (ledgers_of self.now) }
    {
        Lengths {
            concepts: self.concepts.size(),
            roles: self.roles.size(),
            pairs: self.pairs.size(),
            pending: self.pending.size(),
        }
    }

    /// How many rows each ledger has.
    pub fn row_counts(&self) -> Lengths
        ensures { result ≡ row_counts (ledgers_of self.now) }
    {
        Lengths {
            concepts: self.concepts.count(),
            roles: self.roles.count(),
            pairs: self.pairs.count(),
            pending: self.pending.count(),
        }
    }

    /// Leaves all four ledgers without rows.
    pub fn clear(&mut self)
        ensures { ledgers_of self.new ≡ emptied (ledgers_of self.old) }
    {
        self.concepts.cut_back(0);
        self.roles.cut_back(0);
        self.pairs.cut_back(0);
        self.pending.cut_back(0);
    }

    /// Whether there is a place for a fact.
    pub fn has_room_for(&self, fact: &Assertion) -> bool
        ensures { result ≡ room fact.now (ledgers_of self.now) }
    {
        match *fact {
            Assertion::Is(_, _) => has_place(&self.concepts),
            Assertion::Joins(_, _, _) => has_place(&self.roles),
            Assertion::Same(_, _) | Assertion::Different(_, _) => has_place(&self.pairs),
            Assertion::Unlisted(_) => true,
        }
    }

    /// Writes a fact behind the rows of its ledger, if there is a place for it. An unlisted assertion is no row.
    pub fn write(&mut self, fact: Assertion)
        ensures { ledgers_of self.new ≡ written fact (ledgers_of self.old) }
    {
        let _ = match fact {
            Assertion::Is(concept, individual) => {
                self.concepts.append(ConceptRow {
                    concept,
                    individual,
                })
            }
            Assertion::Joins(role, from, to) => self.roles.append(RoleRow { role, from, to }),
            Assertion::Same(x, y) => self.pairs.append(PairRow::Same(x, y)),
            Assertion::Different(x, y) => self.pairs.append(PairRow::Different(x, y)),
            Assertion::Unlisted(_) => Ok(()),
        };
    }

    /// Whether a split has a place for its right side, and one for a concept row.
    pub fn can_note(&self, split: Option<ConceptRow>) -> bool
        ensures { result ≡ noteable split (ledgers_of self.now) }
    {
        split.is_none() || (has_place(&self.pending) && has_place(&self.concepts))
    }

    /// Notes the right side of a split, with the lengths of the other three ledgers and the number of individuals.
    pub fn note(&mut self, split: Option<ConceptRow>, individuals: u16)
        ensures { ledgers_of self.new ≡ noted split individuals (ledgers_of self.old) }
    {
        if let Some(side) = split {
            let row = PendingRow {
                side,
                concepts: self.concepts.count(),
                roles: self.roles.count(),
                pairs: self.pairs.count(),
                individuals,
            };
            let _ = self.pending.append(row);
        }
    }

    /// The right side that was noted last.
    #[tactic(auto, using(crate::proofs::LastRows::last_of_slice_get))]
    pub fn last_pending(&self) -> Option<PendingRow>
        ensures { result ≡ last_of (ledgers_of self.now).pending.rows }
    {
        self.pending.rows().last().copied()
    }

    /// Cuts back to the lengths that a right side notes, and takes the last right side away.
    pub fn cut_to(&mut self, side: &PendingRow)
        ensures { ledgers_of self.new ≡ cut_to side.now (ledgers_of self.old) }
    {
        self.concepts.cut_back(side.concepts);
        self.roles.cut_back(side.roles);
        self.pairs.cut_back(side.pairs);
        let earlier = self.pending.count().saturating_sub(1);
        self.pending.cut_back(earlier);
    }
}

// Whether a ledger has a free place.
fn has_place<T: Copy>(ledger: &Ledger<'_, T>) -> bool
    ensures { result ≡ free (book ledger.now) }
{
    ledger.count() < ledger.size()
}
