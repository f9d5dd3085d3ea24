// Opening a sheet over a base.
ghost use Rattle.calculus.specs.Runs.{lengths_accepted};
ghost use Rattle.ledgers.specs.Contents.{ledgers_of};
ghost use Rattle.sheet.specs.States.{Opened};
ghost use Rattle.std.specs.Prelude.{◌≡◌};

use crate::state::Sheet;
use calculus::lengths::Lengths;
use kb::base::Base;
use kb::check::check_base;
use kb::fault::BaseFault;
use ledgers::Ledgers;

// At most 8,192 places a ledger.
fn are_accepted(sizes: &Lengths) -> bool
    ensures { result ≡ lengths_accepted sizes.now }
{
    sizes.concepts <= 8192 && sizes.roles <= 8192 && sizes.pairs <= 8192 && sizes.pending <= 8192
}

impl Sheet {
    /// A new sheet over a base, with all four ledgers emptied; or 4 for a count of the base or a size of a ledger that is not
    /// accepted, else 2 for the first row out of range. A refusal changes nothing.
    pub fn open<B: Base>(base: &B, ledgers: &mut Ledgers<'_>) -> Result<Sheet, BaseFault>
        ensures { Opened (B.meaning base.now) (ledgers_of ledgers.old) result (ledgers_of ledgers.new) }
    {
        let sizes = ledgers.sizes();
        if !are_accepted(&sizes) {
            return Err(BaseFault::Size);
        }
        let counts = check_base(base)?;
        ledgers.clear();
        Ok(Sheet {
            base: counts,
            sizes,
            rows: ledgers.row_counts(),
            individuals: counts.individuals,
            steps: 0,
            closed: false,
        })
    }
}
