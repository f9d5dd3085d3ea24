// A base written as a case file.
ghost use Rattle.casewriter.specs.Writing.{Written, buffer_after, write_answer};
ghost use Rattle.std.specs.Prelude.{◌≡◌};

use crate::fault::WriteFault;
use crate::sections::{case_size, put_case};
use kb::base::Base;
use kb::check::check_base;

/// Writes an accepted base into the front of a buffer, and answers how many bytes that took. What lies behind them stays.
/// A base that is not accepted is refused first, then a buffer that is too short; a refusal leaves the buffer as it was.
pub fn write_case<B: Base>(base: &B, buffer: &mut [u8]) -> Result<usize, WriteFault>
    ensures value { result ≡ write_answer (B.meaning base.now) buffer.old }
    ensures bytes { buffer.new ≡ buffer_after (B.meaning base.now) buffer.old }
    ensures means { Written (B.meaning base.now) buffer.old result buffer.new }
{
    let counts = check_base(base)?;
    if case_size(&counts) <= buffer.len() {
        Ok(put_case(base, buffer))
    } else {
        Err(WriteFault::Full)
    }
}
