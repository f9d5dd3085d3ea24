// What every call on an opened sheet looks at first: whether base and ledgers are the sheet's.
ghost use Rattle.calculus.specs.Playing.{ready};
ghost use Rattle.calculus.specs.States.{fits};
ghost use Rattle.ledgers.specs.Contents.{ledgers_of};
ghost use Rattle.sheet.specs.States.{state_of};
ghost use Rattle.std.specs.Prelude.{◌≡◌};

use crate::state::Sheet;
use calculus::fault::StepFault;
use kb::base::Base;
use ledgers::Ledgers;

impl Sheet {
    /// Whether the base and the ledgers are the sheet's: equal counts, sizes and numbers of rows, and every row within base and
    /// sheet.
    pub fn fits<B: Base>(&self, base: &B, ledgers: &Ledgers<'_>) -> bool
        ensures { result ≡ fits (B.meaning base.now) (state_of self.now (ledgers_of ledgers.now)) }
    {
        base.counts() == self.base
            && ledgers.sizes() == self.sizes
            && ledgers.row_counts() == self.rows
            && ledgers.rows_fit(&self.base, self.individuals)
    }

    // 5 for a base or ledgers that are not the sheet's, 10 for a scratch of fewer than 1,024 numbers, 6 on a closed sheet.
    pub(crate) fn check_ready<B: Base>(
        &self,
        base: &B,
        ledgers: &Ledgers<'_>,
        scratch: usize,
    ) -> Result<(), StepFault>
        ensures { result ≡ ready (B.meaning base.now) scratch (state_of self.now (ledgers_of ledgers.now)) }
    {
        if !self.fits(base, ledgers) {
            Err(StepFault::Changed)
        } else if scratch < 1024 {
            Err(StepFault::Full)
        } else if self.closed {
            Err(StepFault::Closed)
        } else {
            Ok(())
        }
    }
}
