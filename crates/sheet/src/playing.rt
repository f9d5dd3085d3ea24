// Playing a step: what the sheet holds is looked up first, then the ledgers are written, and then the step is counted. The host
// lends base, ledgers and scratch in each call.
ghost use Rattle.std.specs.Prelude.{◌≡◌, ◌<◌, true, length, IfOk};
ghost use Rattle.calculus.specs.Playing.{accepted, close, last_of, perform};
ghost use Rattle.calculus.specs.States.{fits};
ghost use Rattle.ledgers.specs.Contents.{ledgers_of};
ghost use Rattle.sheet.specs.States.{StepPlayed, numbers_of, state_of};
ghost use Rattle.sheet.specs.Turns.{Carried, performed, turn_by};
ghost use Rattle.sheet.specs.Writing.{extend_to, take_up_by};
ghost use Rattle.table.specs.Rules.{rule_of};

use crate::lookups::Rows;
use crate::state::Sheet;
use crate::turns::{Done, Side, Turn};
use crate::writing::{can_write, has_place_behind, row_count, write_adds};
use calculus::fault::StepFault;
use calculus::row_kinds::ConceptRow;
use calculus::step::Step;
use kb::axioms::Assertion;
use kb::base::Base;
use ledgers::Ledgers;
use table::adds::Adds;
use table::rule::{Effect, Rule};
use table::rule_of;

impl Sheet {
    // Ends the branch: takes up the right side that was noted last, or closes the sheet.
    fn end_branch<B: Base>(&self, rows: &Rows<'_, '_, B>, heads: &mut [u16]) -> Turn
        requires fit { fits (B.meaning rows.now.base.now) (state_of self.now (ledgers_of rows.now.ledgers.now)) ≡ true }
        requires heads { length heads.old ≡ self.now.individuals }
        ensures { turn_by (state_of self.now (ledgers_of rows.now.ledgers.now)) result ≡ close (B.meaning rows.now.base.now) (state_of self.now (ledgers_of rows.now.ledgers.now)) (last_of (ledgers_of rows.now.ledgers.now).pending.rows) }
    {
        match rows.ledgers.last_pending() {
            None => Turn::Closes,
            Some(row) => Turn::TakesUp(Side {
                row,
                is_held: rows.is_held_before(heads, &row),
            }),
        }
    }

    // 9 unless every need of a rule is held, and 10 after 1,000,000 steps; else what the rule does. A right side that is pending is
    // looked up last, since the heads are computed anew for it.
    fn decide<B: Base>(
        &self,
        rows: &Rows<'_, '_, B>,
        heads: &mut [u16],
        rule: &Rule,
    ) -> Result<Turn, StepFault>
        requires fit { fits (B.meaning rows.now.base.now) (state_of self.now (ledgers_of rows.now.ledgers.now)) ≡ true }
        requires heads { length heads.old ≡ self.now.individuals }
        ensures value { performed (state_of self.now (ledgers_of rows.now.ledgers.now)) result ≡ perform (B.meaning rows.now.base.now) (state_of self.now (ledgers_of rows.now.ledgers.now)) (rule_of rule.now) }
        ensures counted { IfOk result (λ _. self.now.steps < 1000000) }
    {
        let new = rows.look_up(heads, rule)?;
        if self.steps >= 1000000 {
            return Err(StepFault::Full);
        }
        let individuals = self.individuals;
        Ok(match rule.effect {
            Effect::Adds(_) => Turn::Extends {
                individuals,
                split: None,
                new,
            },
            Effect::AddsFresh(_) => Turn::Extends {
                individuals: individuals + 1,
                split: None,
                new,
            },
            Effect::Splits {
                right,
                individual,
                ..
            } => Turn::Extends {
                individuals,
                split: Some(ConceptRow {
                    concept: right,
                    individual,
                }),
                new,
            },
            Effect::Closes => self.end_branch(rows, heads),
        })
    }

    // Notes the right side of a split and writes facts that are missing, if there is room, so that there are so many individuals.
    fn extend(
        &self,
        ledgers: &mut Ledgers<'_>,
        individuals: u16,
        split: Option<ConceptRow>,
        new: Adds,
    ) -> Result<Done, StepFault>
        ensures { Carried (extend_to (state_of self.now (ledgers_of ledgers.old)) individuals split new) (state_of self.now (ledgers_of ledgers.old)) result (ledgers_of ledgers.new) }
    {
        if individuals > 1024 || !ledgers.can_note(split) || !can_write(ledgers, new) {
            return Err(StepFault::Full);
        }
        ledgers.note(split, self.individuals);
        write_adds(ledgers, new);
        Ok(Done {
            individuals,
            closed: false,
            rows: row_count(new),
        })
    }

    // Cuts back to what a right side notes, and writes it unless it is held there.
    fn take_up(&self, ledgers: &mut Ledgers<'_>, side: &Side) -> Result<Done, StepFault>
        ensures { Carried (take_up_by (state_of self.now (ledgers_of ledgers.old)) side.now.row side.now.is_held) (state_of self.now (ledgers_of ledgers.old)) result (ledgers_of ledgers.new) }
    {
        let row = side.row;
        if !side.is_held && !has_place_behind(ledgers, &row) {
            return Err(StepFault::Full);
        }
        ledgers.cut_to(&row);
        if !side.is_held {
            ledgers.write(Assertion::Is(row.side.concept, row.side.individual));
        }
        Ok(Done {
            individuals: row.individuals,
            closed: false,
            rows: usize::from(!side.is_held),
        })
    }

    // Does what a step does to the ledgers, or refuses for want of a place and does nothing.
    fn carry_out(&self, ledgers: &mut Ledgers<'_>, turn: Turn) -> Result<Done, StepFault>
        ensures { Carried (turn_by (state_of self.now (ledgers_of ledgers.old)) turn) (state_of self.now (ledgers_of ledgers.old)) result (ledgers_of ledgers.new) }
    {
        match turn {
            Turn::Extends {
                individuals,
                split,
                new,
            } => self.extend(ledgers, individuals, split, new),
            Turn::TakesUp(side) => self.take_up(ledgers, &side),
            Turn::Closes => Ok(Done {
                individuals: self.individuals,
                closed: true,
                rows: 0,
            }),
        }
    }

    // Counts an accepted step, and remembers what it left.
    fn accept(&mut self, ledgers: &Ledgers<'_>, done: Done)
        requires { self.old.steps < 1000000 }
        ensures { state_of self.new (ledgers_of ledgers.entry.now) ≡ (accepted (numbers_of self.old) done.individuals done.closed (record { ledgers = ledgers_of ledgers.entry.now; rows = done.rows })).state }
    {
        self.rows = ledgers.row_counts();
        self.individuals = done.individuals;
        self.steps += 1;
        self.closed = done.closed;
    }

    /// Plays a step on the base and in the ledgers that the sheet was opened with, and answers how many rows it wrote outside the
    /// pending ledger. The scratch, of at least 1,024 numbers, is for the heads of individuals; what it holds afterwards is not
    /// promised. A refused step changes nothing else.
    pub fn play<B: Base>(
        &mut self,
        base: &B,
        ledgers: &mut Ledgers<'_>,
        scratch: &mut [u16],
        step: &Step<'_>,
    ) -> Result<usize, StepFault>
        ensures { StepPlayed (B.meaning base.now) (length scratch.old) step.now (state_of self.old (ledgers_of ledgers.old)) result (state_of self.new (ledgers_of ledgers.new)) }
    {
        self.check_ready(base, ledgers, scratch.len())?;
        let rule = rule_of(base, self.individuals, step)?;
        let individuals = usize::from(self.individuals);
        let rows = Rows { base, ledgers };
        let turn = self.decide(&rows, &mut scratch[..individuals], &rule)?;
        let done = self.carry_out(ledgers, turn)?;
        self.accept(ledgers, done);
        Ok(done.rows)
    }
}
