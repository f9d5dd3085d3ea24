// A list of rows behind another: what every layer that adds rows answers.
ghost use Rattle.std.specs.Prelude.{◌≡◌, ◌-◌, ◌≤◌, List, length};
ghost use Rattle.kb.specs.Telling.{behind};
ghost use Rattle.layers.specs.Layers.{of_two};
ghost use Rattle.rows.specs.Rows.{row_at};

use rows::RowFault;

/// Row `n` of a list behind another, from two answers: row `n` of the first, and of the second the row whose number is
/// less by the length of the first.
///
/// Both are asked for beforehand: a closure for the second would need a `requires`, and no public function has one. A function
/// of one crate may have one, but would stand in layers and in join with the same clauses, and a call would be no shorter.
pub fn behind<T: Copy>(
    n: usize,
    first: Result<T, RowFault>,
    second: Result<T, RowFault>,
) -> Result<T, RowFault>
    ensures value { result ≡ of_two n first second }
    ensures means { (xs ys : List T) → length xs ≤ 65535 → first ≡ row_at xs n → second ≡ row_at ys (n - length xs) → result ≡ row_at (behind xs ys) n }
{
    if n < 65_535 { first.or(second) } else { first }
}
