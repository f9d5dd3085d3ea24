// What the rows of a sheet hold of a rule, and of a right side that is pending.
ghost use Rattle.std.specs.Prelude.{◌≡◌, Some, option_to_list, [], ◌∷◌, ◌++◌, length, take};
ghost use Rattle.calculus.specs.Branches.{held};
ghost use Rattle.kb.specs.declared.axioms.Assertion.{Assertion};
ghost use Rattle.calculus.specs.Playing.{cut_to};
ghost use Rattle.calculus.specs.StepLaws.{missing, side_of};
ghost use Rattle.ledgers.specs.Contents.{ledgers_of};
ghost use Rattle.lookup.specs.Views.{branch_in};
ghost use Rattle.sheet.specs.Writing.{adds_as, looked_up, rows_shown};
ghost use Rattle.table.specs.FactLists.{adds_of};
ghost use Rattle.table.specs.Rules.{rule_of};

use calculus::fault::StepFault;
use calculus::row_kinds::PendingRow;
use kb::axioms::Assertion;
use kb::base::Base;
use ledgers::Ledgers;
use lookup::view::View;
use table::adds::Adds;
use table::rule::Rule;

// The base and the rows of a sheet, for looking up. The heads are no third field: a view that takes base, rows and heads out of
// one struct was tried, with one lifetime and with one for each field, and the borrow checker does not cover it ("an intersection
// of lifetimes", "another lifetime").
#[derive(Drop)]
pub(crate) struct Rows<'s, 'l, B> {
    pub(crate) base: &'s B,
    pub(crate) ledgers: &'s Ledgers<'l>,
}

// Those of two facts that are missing. `both` adds the two.
fn missing_ones(first: Option<Assertion>, second: Option<Assertion>, both: Adds) -> Adds
    requires { (a b : Assertion) → first ≡ Some a → second ≡ Some b → adds_of both ≡ a ∷ b ∷ [] }
    ensures { adds_of result ≡ option_to_list first ++ option_to_list second }
{
    match (first, second) {
        (None, None) => Adds::Nothing,
        (Some(fact), None) | (None, Some(fact)) => Adds::Fact(fact),
        (Some(_), Some(_)) => both,
    }
}

// Those of the facts that are missing when their turn comes: of two parts, the second is looked up after the first was written.
fn missing_of<B: Base>(view: &View<'_, '_, B>, adds: Adds) -> Adds
    ensures { adds_of result ≡ missing (B.meaning view.now.base.now) (branch_in view.now) (adds_of adds) }
{
    match adds {
        Adds::Nothing => Adds::Nothing,
        Adds::Fact(fact) => {
            if view.held(&fact) {
                Adds::Nothing
            } else {
                adds
            }
        }
        Adds::Parts(d, e, x) => {
            let first = Assertion::Is(d, x);
            let second = Assertion::Is(e, x);
            let first_held = view.held(&first);
            let second_held = d == e || view.held(&second);
            let first_missing = (!first_held).then_some(first);
            missing_ones(first_missing, (!second_held).then_some(second), adds)
        }
        Adds::Reached(r, x, y, d) => {
            let first = Assertion::Joins(r, x, y);
            let second = Assertion::Is(d, y);
            let first_held = view.held(&first);
            let second_held = view.held(&second);
            let first_missing = (!first_held).then_some(first);
            missing_ones(first_missing, (!second_held).then_some(second), adds)
        }
    }
}

// The first rows of a slice.
fn front<T>(rows: &[T], count: usize) -> &[T]
    ensures { result.now ≡ take count rows.now }
{
    rows.get(..count).unwrap_or(rows)
}

impl<B: Base> Rows<'_, '_, B> {
    // 9 unless every need of a rule is held; else which of its facts are missing.
    pub(crate) fn look_up(&self, heads: &mut [u16], rule: &Rule) -> Result<Adds, StepFault>
        ensures { adds_as result ≡ looked_up (B.meaning self.now.base.now) (rows_shown (length heads.old) (ledgers_of self.now.ledgers.now)) (rule_of rule.now) }
    {
        let view = View::over(
            self.base,
            heads,
            self.ledgers.concepts.rows(),
            self.ledgers.roles.rows(),
            self.ledgers.pairs.rows(),
        );
        if view.all_held(rule.needs.all()) {
            Ok(missing_of(&view, rule.effect.adds()))
        } else {
            Err(StepFault::Premise)
        }
    }

    // Whether a right side is held on the branch as it was when the side was noted.
    pub(crate) fn is_held_before(&self, heads: &mut [u16], side: &PendingRow) -> bool
        ensures { result ≡ held (B.meaning self.now.base.now) (rows_shown (length heads.old) (cut_to side.now (ledgers_of self.now.ledgers.now))) (side_of side.now) }
    {
        let concepts = front(self.ledgers.concepts.rows(), side.concepts);
        let roles = front(self.ledgers.roles.rows(), side.roles);
        let pairs = front(self.ledgers.pairs.rows(), side.pairs);
        let view = View::over(self.base, heads, concepts, roles, pairs);
        view.held(&Assertion::Is(side.side.concept, side.side.individual))
    }
}
