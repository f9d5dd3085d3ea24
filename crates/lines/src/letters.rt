// The letter of a line decides the step, and how many numbers it takes.
ghost use Rattle.lines.specs.Letters.{individuals, step_of};
ghost use Rattle.lines.specs.Steps.{line_step};
ghost use Rattle.std.specs.Result.{result_map_both};
ghost use Rattle.std.specs.Prelude.{◌≡◌, ◌<◌, length, MatchResult};

use crate::line::Line;
use arrayvec::ArrayVec;
use kb::names::{Concept, Individual};
use words::fault::ReadFault;

// Numbers as individuals, of which there are at most four.
fn individuals(numbers: &[u16]) -> Result<ArrayVec<Individual, 4>, ReadFault>
    ensures { MatchResult result (λ zs. zs.items ≡ individuals numbers.now) (λ _. 4 < length numbers.now) }
{
    let mut values = ArrayVec::new();
    for n in numbers {
        values
            .try_push(Individual(*n))
            .map_err(|_| ReadFault::Unreadable)?;
    }
    Ok(values)
}

// The line that a letter with its numbers is.
pub(crate) fn line_of(letter: char, numbers: &[u16]) -> Result<Line, ReadFault>
    ensures { result_map_both line_step (λ f. f) result ≡ step_of letter numbers.now }
{
    match (letter, numbers) {
        ('t', [n]) => Ok(Line::Take(*n)),
        ('b', [c, x]) => Ok(Line::Both(Concept(*c), Individual(*x))),
        ('a', [c, x, y]) => Ok(Line::All(Concept(*c), Individual(*x), Individual(*y))),
        ('s', [c, x]) => Ok(Line::Some(Concept(*c), Individual(*x))),
        ('i', [n, x]) => Ok(Line::Include(*n, Individual(*x))),
        ('k', [n, x, y, shared @ ..]) => {
            let values = individuals(shared)?;
            Ok(Line::Key(*n, Individual(*x), Individual(*y), values))
        }
        ('e', [c, x]) => Ok(Line::Either(Concept(*c), Individual(*x))),
        ('u', [c, x]) => Ok(Line::Cut(Concept(*c), Individual(*x))),
        ('q', [c, x]) => Ok(Line::Clash(Concept(*c), Individual(*x))),
        ('d', [x, y]) => Ok(Line::Apart(Individual(*x), Individual(*y))),
        _ => Err(ReadFault::Unreadable),
    }
}
