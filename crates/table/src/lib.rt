// The rule table in running code: for each of the ten steps, what it needs, adds, splits and closes. It looks at the base and
// at the numbers that a step names; nothing of rows that a sheet has written belongs here.
#![tactic(auto)]

ghost use Rattle.calculus.specs.Table.{rule};
ghost use Rattle.table.specs.Rules.{ruled_as};
ghost use Rattle.std.specs.Prelude.{◌≡◌};

use calculus::fault::StepFault;
use calculus::step::Step;
use kb::base::Base;

pub mod adds;
pub mod facts;
mod key;
mod lines;
pub mod rule;
mod shapes;
mod steps;

use lines::Lines;
use rule::Rule;

/// The line of a step on a sheet with so many individuals, or why it is refused: a number out of range (7), then a concept of
/// another kind or a wrong count of shared values (8).
pub fn rule_of<B: Base>(base: &B, individuals: u16, step: &Step<'_>) -> Result<Rule, StepFault>
    ensures { ruled_as result ≡ rule (B.meaning base.now) individuals step.now }
{
    let lines = Lines { base, individuals };
    match *step {
        Step::Take(k) => lines.take(k),
        Step::Both(c, x) => lines.both(c, x),
        Step::All(c, x, y) => lines.all(c, x, y),
        Step::Some(c, x) => lines.some(c, x),
        Step::Include(k, x) => lines.include(k, x),
        Step::Key(k, x, y, zs) => lines.key(k, x, y, zs),
        Step::Either(c, x) => lines.either(c, x),
        Step::Cut(c, x) => lines.cut(c, x),
        Step::Clash(c, x) => lines.clash(c, x),
        Step::Apart(x, y) => lines.apart(x, y),
    }
}
