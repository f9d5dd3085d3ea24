// A line read from a text.
ghost use Rattle.std.specs.Prelude.{◌≡◌, ◌<◌, true, [], length, drop};
ghost use Rattle.lines.specs.Reading.{begins, line_at, read_numbers, seen_line, seen_numbers};
ghost use Rattle.lines.specs.Spelling.{LineRead};
ghost use Rattle.std.specs.Result.{result_map_both};

use crate::letters::line_of;
use crate::line::Line;
use arrayvec::ArrayVec;
use words::fault::ReadFault;
use words::read::{letter_at, number_at};

// The byte at a place is this one.
fn is_at(text: &[u8], at: usize, byte: u8) -> bool
    ensures value { result ≡ begins byte (drop at text.now) }
    ensures within { result ≡ true → at < length text.now }
{
    text.get(at) == Some(&byte)
}

// The numbers that were read, and the place behind them.
#[derive(Drop)]
struct ReadNumbers {
    numbers: ArrayVec<u16, 7>,
    end: usize,
}

// The numbers from a place on, each behind a space, seven at most.
fn read_numbers(text: &[u8], from: usize) -> Result<ReadNumbers, ReadFault>
    ensures { result_map_both (seen_numbers text.now) (λ f. f) result ≡ read_numbers 7 [] (drop from text.now) }
{
    let mut numbers = ArrayVec::new();
    let mut end = from;
    // The next place is what reading answers, so that a cursor is kept and no iterator.
    while !numbers.is_full() && is_at(text, end, b' ') {
        let number = number_at(text, end + 1)?;
        numbers.push(number.value);
        end += 1 + number.size;
    }
    Ok(ReadNumbers { numbers, end })
}

/// A line that was read, and the place behind its newline.
#[derive(Drop)]
pub struct ReadLine {
    pub line: Line,
    pub end: usize,
}

/// The line that begins at a place. Reading is the inverse of writing: what is written for a step reads back as that step,
/// and nothing else does.
pub fn read_line(text: &[u8], from: usize) -> Result<ReadLine, ReadFault>
    ensures value { result_map_both seen_line (λ f. f) result ≡ line_at text.now from }
    ensures inverse { LineRead text.now from (result_map_both seen_line (λ f. f) result) }
{
    let letter = letter_at(text, from)?;
    let read = read_numbers(text, from + 1)?;
    if !is_at(text, read.end, b'\n') {
        return Err(ReadFault::Unreadable);
    }
    let line = line_of(letter, read.numbers.as_slice())?;
    Ok(ReadLine {
        line,
        end: read.end + 1,
    })
}
