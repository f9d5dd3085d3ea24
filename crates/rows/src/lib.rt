// What row n of a list is, counted from 0, and the one refusal that asking for a row can meet.
// Nothing of bases, concepts or sheets belongs here.
#![tactic(auto)]

ghost use Rattle.rows.specs.Rows.{row_at, RowAt};
ghost use Rattle.std.specs.Prelude.{◌≡◌};

mod fault;

pub use fault::RowFault;

/// Row `n` of a slice.
pub fn row<T: Copy>(rows: &[T], n: usize) -> Result<T, RowFault>
    ensures value { result ≡ row_at rows.now n }
    ensures means { RowAt rows.now n result }
{
    rows.get(n).copied().ok_or(RowFault::NoSuchRow)
}
