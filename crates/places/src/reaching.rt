// Whether a role goes from an individual to one that passes a test. Only individuals to which a row goes are looked at.
ghost use Rattle.kb.specs.declared.names.Individual.{Individual};
ghost use Rattle.lookup.specs.Views.{branch_in};
ghost use Rattle.places.specs.Reaching.{AnswersAs, PassAlike, reaches_one};
ghost use Rattle.std.specs.Prelude.{◌≡◌, Bool};

use kb::axioms::Assertion;
use kb::base::Base;
use kb::names::{Individual, Role};
use lookup::view::View;

// Whether the role goes from an individual to one of the sheet that passes a test, where equal individuals pass it alike.
pub(crate) fn reaches<B: Base, F: Fn(Individual) -> bool>(
    view: &View<'_, '_, B>,
    role: Role,
    from: Individual,
    passes: F,
) -> bool
    requires { F.IsAlwaysCallable passes }
    ensures { (test : Individual → Bool) → AnswersAs (F.post passes) test → PassAlike (branch_in view.now) test → result ≡ reaches_one (B.meaning view.now.base.now) (branch_in view.now) role from test }
{
    view.roles.iter().any(|row| {
        view.equal(row.from, from)
            && row.to.0 < view.individuals()
            && view.held(&Assertion::Joins(role, from, row.to))
            && passes(row.to)
    })
}
