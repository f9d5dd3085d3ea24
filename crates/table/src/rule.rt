// A line of the table.
ghost use Rattle.table.specs.FactLists.{adds_of, facts_of};
ghost use Rattle.table.specs.Rules.{line_of, rule_of};
ghost use Rattle.std.specs.Prelude.{◌≡◌, ◌≤◌, [], length};

use crate::adds::Adds;
use crate::facts::Facts;
use kb::axioms::Assertion;
use kb::names::{Concept, Individual};

/// What a step comes to.
#[derive(Clone, Copy)]
pub struct Rule {
    /// What must be held.
    pub needs: Facts,
    /// What is done then.
    pub effect: Effect,
}

/// What a line of the table does where its needs are held.
#[derive(Clone, Copy, Debug, PartialEq, Eq)]
pub enum Effect {
    /// Writes facts unless they are held.
    Adds(Adds),
    /// The same, with facts about the next individual: there is one individual more then.
    AddsFresh(Adds),
    /// Notes the right concept of an individual as pending, and writes the left one unless it is held.
    Splits {
        left: Concept,
        right: Concept,
        individual: Individual,
    },
    /// Ends the branch.
    Closes,
}

impl Rule {
    /// The line with these needs and this effect.
    pub(crate) fn new(needs: &[Assertion], effect: Effect) -> Rule
        requires { length needs.now ≤ 10 }
        ensures { rule_of result ≡ line_of needs.now effect }
    {
        Rule {
            needs: Facts::of(needs),
            effect,
        }
    }
}

impl Effect {
    /// What is written unless it is held.
    pub fn adds(self) -> Adds
        ensures { adds_of result ≡ (line_of [] self).adds }
    {
        match self {
            Effect::Adds(adds) | Effect::AddsFresh(adds) => adds,
            Effect::Splits {
                left,
                individual,
                ..
            } => Adds::Fact(Assertion::Is(left, individual)),
            Effect::Closes => Adds::Nothing,
        }
    }
}
