// One row more in a list of fixed room.
ghost use Rattle.layers.specs.Tables.{OneMore};
ghost use Rattle.std.specs.Prelude.{◌≡◌, OnErr};

use crate::fault::LayerFault;
use arrayvec::ArrayVec;

/// One row more behind the others, unless there is no room. The answer is its number.
pub(crate) fn add_row<T: Copy, const N: usize>(
    list: &mut ArrayVec<T, N>,
    row: T,
) -> Result<usize, LayerFault>
    ensures rows { OneMore N row list.old.items result list.new.items }
    ensures refused { OnErr result (list.new ≡ list.old) }
{
    let number = list.len();
    list.try_push(row).map_err(|_| LayerFault::Full)?;
    Ok(number)
}
