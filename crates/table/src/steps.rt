// The line of each step but the key's.
ghost use Rattle.calculus.specs.Table.{rule};
ghost use Rattle.calculus.specs.declared.step.Step.TheVariants.{All, Apart, Both, Clash, Cut, Either, Include, Some as SomeStep, Take};
ghost use Rattle.table.specs.Rules.{ruled_as};
ghost use Rattle.std.specs.Prelude.{◌≡◌};

use crate::adds::Adds;
use crate::lines::{Lines, inside};
use crate::rule::{Effect, Rule};
use calculus::fault::StepFault;
use calculus::shape::Shape;
use kb::axioms::Assertion;
use kb::base::Base;
use kb::names::{Concept, Individual};

impl<B: Base> Lines<'_, B> {
    /// Takes an assertion of the base.
    pub(crate) fn take(&self, k: usize) -> Result<Rule, StepFault>
        ensures { ruled_as result ≡ rule (B.meaning self.now.base.now) self.now.individuals (Take k) }
    {
        let assertion = self.base.assertion(k)?;
        Ok(Rule::new(&[], Effect::Adds(Adds::Fact(assertion))))
    }

    /// From BOTH(d, e) of x: d and e of x.
    pub(crate) fn both(&self, c: Concept, x: Individual) -> Result<Rule, StepFault>
        ensures { ruled_as result ≡ rule (B.meaning self.now.base.now) self.now.individuals (Both c x) }
    {
        let Shape::Both(d, e) = self.shape(c, self.has(x))? else {
            return Err(StepFault::Kind);
        };
        let needs = [Assertion::Is(c, x)];
        Ok(Rule::new(&needs, Effect::Adds(Adds::Parts(d, e, x))))
    }

    /// From ~SOME(r, d) of x and r from x to y: ~d of y.
    pub(crate) fn all(&self, c: Concept, x: Individual, y: Individual) -> Result<Rule, StepFault>
        ensures { ruled_as result ≡ rule (B.meaning self.now.base.now) self.now.individuals (All c x y) }
    {
        let in_range = self.has(x) && self.has(y);
        let Shape::NotSome(r, d) = self.shape(c, in_range)? else {
            return Err(StepFault::Kind);
        };
        let needs = [Assertion::Is(c, x), Assertion::Joins(r, x, y)];
        let added = Assertion::Is(d.complement(), y);
        Ok(Rule::new(&needs, Effect::Adds(Adds::Fact(added))))
    }

    /// From SOME(r, d) of x: the next individual y, r from x to y, d of y.
    pub(crate) fn some(&self, c: Concept, x: Individual) -> Result<Rule, StepFault>
        ensures { ruled_as result ≡ rule (B.meaning self.now.base.now) self.now.individuals (SomeStep c x) }
    {
        let Shape::Some(r, d) = self.shape(c, self.has(x))? else {
            return Err(StepFault::Kind);
        };
        let needs = [Assertion::Is(c, x)];
        let y = Individual(self.individuals);
        Ok(Rule::new(&needs, Effect::AddsFresh(Adds::Reached(r, x, y, d))))
    }

    /// By an inclusion (c, d), from c of x: d of x.
    pub(crate) fn include(&self, k: usize, x: Individual) -> Result<Rule, StepFault>
        ensures { ruled_as result ≡ rule (B.meaning self.now.base.now) self.now.individuals (Include k x) }
    {
        let inclusion = inside(self.has(x), self.base.inclusion(k)?)?;
        let needs = [Assertion::Is(inclusion.sub, x)];
        let added = Assertion::Is(inclusion.sup, x);
        Ok(Rule::new(&needs, Effect::Adds(Adds::Fact(added))))
    }

    /// From ~BOTH(d, e) of x: left ~d, right ~e of x.
    pub(crate) fn either(&self, c: Concept, x: Individual) -> Result<Rule, StepFault>
        ensures { ruled_as result ≡ rule (B.meaning self.now.base.now) self.now.individuals (Either c x) }
    {
        let Shape::NotBoth(d, e) = self.shape(c, self.has(x))? else {
            return Err(StepFault::Kind);
        };
        let needs = [Assertion::Is(c, x)];
        let sides = Effect::Splits {
            left: d.complement(),
            right: e.complement(),
            individual: x,
        };
        Ok(Rule::new(&needs, sides))
    }

    /// Left c, right ~c of x.
    pub(crate) fn cut(&self, c: Concept, x: Individual) -> Result<Rule, StepFault>
        ensures { ruled_as result ≡ rule (B.meaning self.now.base.now) self.now.individuals (Cut c x) }
    {
        self.shape(c, self.has(x))?;
        let sides = Effect::Splits {
            left: c,
            right: c.complement(),
            individual: x,
        };
        Ok(Rule::new(&[], sides))
    }

    /// c and ~c of x close the branch.
    pub(crate) fn clash(&self, c: Concept, x: Individual) -> Result<Rule, StepFault>
        ensures { ruled_as result ≡ rule (B.meaning self.now.base.now) self.now.individuals (Clash c x) }
    {
        self.shape(c, self.has(x))?;
        let needs = [Assertion::Is(c, x), Assertion::Is(c.complement(), x)];
        Ok(Rule::new(&needs, Effect::Closes))
    }

    /// x different from y, and yet equal, closes the branch.
    pub(crate) fn apart(&self, x: Individual, y: Individual) -> Result<Rule, StepFault>
        ensures { ruled_as result ≡ rule (B.meaning self.now.base.now) self.now.individuals (Apart x y) }
    {
        inside(self.has(x) && self.has(y), ())?;
        let needs = [Assertion::Different(x, y), Assertion::Same(x, y)];
        Ok(Rule::new(&needs, Effect::Closes))
    }
}
