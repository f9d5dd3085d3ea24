// The line of a key step.
ghost use Rattle.std.specs.Prelude.{◌≡◌, ◌+◌, ◌*◌, ◌≤◌, ◌++◌, length};
ghost use Rattle.calculus.specs.Table.{key_rule, rule, sharing};
ghost use Rattle.calculus.specs.declared.step.Step.TheVariants.{Key as KeyStep};
ghost use Rattle.table.specs.FactLists.{facts_of};
ghost use Rattle.table.specs.Rules.{ruled_as};

use crate::adds::Adds;
use crate::facts::Facts;
use crate::lines::{Lines, inside};
use crate::rule::{Effect, Rule};
use calculus::fault::StepFault;
use kb::axioms::{Assertion, Key, RolePair};
use kb::base::Base;
use kb::names::Individual;

// Each pair's roles join x and y to its shared value.
fn share(needs: &mut Facts, x: Individual, y: Individual, pairs: &[RolePair], zs: &[Individual])
    requires pairs_len_bound { length (facts_of needs.old) + 2 * length pairs.now ≤ 10 }
    ensures { facts_of needs.new ≡ facts_of needs.old ++ sharing x y pairs.now zs.now }
{
    for (pair, z) in pairs.iter().zip(zs) {
        needs.push(Assertion::Joins(pair.left, x, *z));
        needs.push(Assertion::Joins(pair.right, y, *z));
    }
}

// By a key, with one shared value for each pair.
fn key_rule(x: Individual, y: Individual, zs: &[Individual], key: Key) -> Result<Rule, StepFault>
    ensures { ruled_as result ≡ key_rule x y zs.now key }
{
    let Key::Link(c, d, pairs) = key else {
        return Err(StepFault::Kind);
    };
    let pairs = pairs.list();
    if zs.len() != pairs.len() {
        return Err(StepFault::Kind);
    }
    let mut needs = Facts::of(&[Assertion::Is(c, x), Assertion::Is(d, y)]);
    share(&mut needs, x, y, &pairs, zs);
    let effect = Effect::Adds(Adds::Fact(Assertion::Same(x, y)));
    Ok(Rule { needs, effect })
}

impl<B: Base> Lines<'_, B> {
    /// By a key, from its classes and shared values: x same as y.
    pub(crate) fn key(
        &self,
        k: usize,
        x: Individual,
        y: Individual,
        zs: &[Individual],
    ) -> Result<Rule, StepFault>
        ensures { ruled_as result ≡ rule (B.meaning self.now.base.now) self.now.individuals (KeyStep k x y zs.entry) }
    {
        let in_range = self.has(x) && self.has(y) && self.has_all(zs);
        key_rule(x, y, zs, inside(in_range, self.base.key(k)?)?)
    }
}
