// The letter and the numbers of a step.
ghost use Rattle.std.specs.Prelude.{◌≡◌, ◌<◌, false, ◌∷◌, length, MatchResult};
ghost use Rattle.lines.specs.Letters.{individual_numbers, letter_of, numbers_of};
ghost use Rattle.lines.specs.Spelling.{writable};
ghost use Rattle.lines.specs.Writing.{row_number};
ghost use Rattle.lines.specs.declared.fault.LineFault.TheVariants.{Unwritable};

use crate::fault::LineFault;
use arrayvec::ArrayVec;
use calculus::step::Step;
use kb::names::Individual;

// The letter of a step.
pub(crate) fn letter_of(step: &Step<'_>) -> char
    ensures { result ≡ letter_of step.now }
{
    match *step {
        Step::Take(_) => 't',
        Step::Both(_, _) => 'b',
        Step::All(_, _, _) => 'a',
        Step::Some(_, _) => 's',
        Step::Include(_, _) => 'i',
        Step::Key(_, _, _, _) => 'k',
        Step::Either(_, _) => 'e',
        Step::Cut(_, _) => 'u',
        Step::Clash(_, _) => 'q',
        Step::Apart(_, _) => 'd',
    }
}

// The number of a row, if a line can have it.
fn row_number(n: usize) -> Result<u16, LineFault>
    ensures { result ≡ row_number n }
{
    u16::try_from(n).map_err(|_| LineFault::Unwritable)
}

// A few numbers: a line has at most seven.
fn few(numbers: &[u16]) -> Result<ArrayVec<u16, 7>, LineFault>
    ensures { MatchResult result (λ f. f.items ≡ numbers.now) (λ e. (e ≡ Unwritable) × (7 < length numbers.now)) }
{
    ArrayVec::try_from(numbers).map_err(|_| LineFault::Unwritable)
}

// The numbers of a key line, with up to four shared values.
fn key_numbers(
    n: u16,
    x: Individual,
    y: Individual,
    shared: &[Individual],
) -> Result<ArrayVec<u16, 7>, LineFault>
    ensures { MatchResult result (λ f. f.items ≡ n ∷ x.0 ∷ y.0 ∷ individual_numbers shared.now) (λ e. (e ≡ Unwritable) × (4 < length shared.now)) }
{
    let mut numbers = few(&[n, x.0, y.0])?;
    for z in shared {
        numbers.try_push(z.0).map_err(|_| LineFault::Unwritable)?;
    }
    Ok(numbers)
}

// The numbers of a step that can be written.
pub(crate) fn numbers_of(step: &Step<'_>) -> Result<ArrayVec<u16, 7>, LineFault>
    ensures { MatchResult result (λ f. f.items ≡ numbers_of step.now) (λ e. (e ≡ Unwritable) × (writable step.now ≡ false)) }
{
    match *step {
        Step::Take(n) => few(&[row_number(n)?]),
        Step::All(c, x, y) => few(&[c.0, x.0, y.0]),
        Step::Include(n, x) => few(&[row_number(n)?, x.0]),
        Step::Key(n, x, y, shared) => key_numbers(row_number(n)?, x, y, shared),
        Step::Apart(x, y) => few(&[x.0, y.0]),
        Step::Both(c, x)
        | Step::Some(c, x)
        | Step::Either(c, x)
        | Step::Cut(c, x)
        | Step::Clash(c, x) => few(&[c.0, x.0]),
    }
}
