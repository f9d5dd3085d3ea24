// Review of a sheet, with what it says of every interpretation of the base. It only looks at rows; nothing that writes one
// belongs here.
#![tactic(auto)]

ghost use Rattle.std.specs.Prelude.{◌≡◌, length};
ghost use Rattle.calculus.specs.Review.{found, lowest_failing};
ghost use Rattle.ledgers.specs.Contents.{ledgers_of};
ghost use Rattle.review.specs.Verdicts.{Reviewed};
ghost use Rattle.sheet.specs.States.{state_of};
ghost use Rattle.sheet.specs.Writing.{rows_shown};

use calculus::review::{Finding, ReviewFault};
use conditions::first_failure;
use kb::base::Base;
use ledgers::Ledgers;
use lookup::view::View;
use sheet::Sheet;

// What is found on a sheet that is not closed: open, or the lowest condition that fails.
fn find<B: Base>(base: &B, ledgers: &Ledgers<'_>, heads: &mut [u16]) -> Result<Finding, ReviewFault>
    ensures { result ≡ found (lowest_failing (B.meaning base.now) (rows_shown (length heads.old) (ledgers_of ledgers.now))) }
{
    let view = View::over(
        base,
        heads,
        ledgers.concepts.rows(),
        ledgers.roles.rows(),
        ledgers.pairs.rows(),
    );
    match first_failure(&view) {
        None => Ok(Finding::Open),
        Some(failure) => Err(ReviewFault::Condition(failure.condition())),
    }
}

/// Closed on a closed sheet; else open if the eight conditions hold, or 11 with the lowest that fails. Before that, 5 for a
/// base or ledgers that are not the sheet's, and 10 for a scratch of fewer than 1,024 numbers. Nothing changes but the scratch.
pub fn review<B: Base>(
    sheet: &Sheet,
    base: &B,
    ledgers: &Ledgers<'_>,
    scratch: &mut [u16],
) -> Result<Finding, ReviewFault>
    ensures { Reviewed (B.meaning base.now) (length scratch.old) (state_of sheet.now (ledgers_of ledgers.now)) result (state_of sheet.now (ledgers_of ledgers.now)) }
{
    if !sheet.fits(base, ledgers) {
        return Err(ReviewFault::Changed);
    }
    if scratch.len() < 1024 {
        return Err(ReviewFault::Full);
    }
    if sheet.is_closed() {
        return Ok(Finding::Closed);
    }
    let individuals = usize::from(sheet.individuals());
    find(base, ledgers, &mut scratch[0..individuals])
}
