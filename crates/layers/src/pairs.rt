// The pairs of a key, asked or held: one to four of them.
ghost use Rattle.layers.specs.Growing.{with_pair};
ghost use Rattle.std.specs.Prelude.{◌≡◌};

use crate::fault::LayerFault;
use kb::axioms::{RolePair, RolePairs};

/// The pairs with one more behind them, unless there are four.
///
/// Case by case: a list of pairs would have to be turned back into one to four of them, by the same cases.
pub(crate) fn with_pair(pairs: RolePairs, pair: RolePair) -> Result<RolePairs, LayerFault>
    ensures { result ≡ with_pair pair pairs }
{
    match pairs {
        RolePairs::One(p) => Ok(RolePairs::Two(p, pair)),
        RolePairs::Two(p, q) => Ok(RolePairs::Three(p, q, pair)),
        RolePairs::Three(p, q, s) => Ok(RolePairs::Four(p, q, s, pair)),
        RolePairs::Four(_, _, _, _) => Err(LayerFault::Full),
    }
}
