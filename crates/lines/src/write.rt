// A step written as a line.
ghost use Rattle.lines.specs.Writing.{LineWritten, buffer_after, write_answer};
ghost use Rattle.std.specs.Prelude.{◌≡◌};

use crate::fault::LineFault;
use crate::numbers::{letter_of, numbers_of};
use crate::spelling::spell;
use calculus::step::Step;

/// Writes the line of a step into the front of a buffer, and answers how many bytes that took. What lies behind them stays.
/// A step that cannot be written is refused first, then a buffer that is too short; a refusal leaves the buffer as it was.
pub fn write_line(step: &Step<'_>, buffer: &mut [u8]) -> Result<usize, LineFault>
    ensures value { result ≡ write_answer step.now buffer.old }
    ensures bytes { buffer.new ≡ buffer_after step.now buffer.old }
    ensures means { LineWritten step.now buffer.old result buffer.new }
{
    let numbers = numbers_of(step)?;
    let line = spell(letter_of(step), numbers.as_slice());
    let size = line.len();
    if size > buffer.len() {
        return Err(LineFault::Full);
    }
    buffer[..size].copy_from_slice(line.as_str().as_bytes());
    Ok(size)
}
