// A word of a text.
ghost use Rattle.words.specs.Words.{letter_in, number_in, seen, size_of};
ghost use Rattle.std.specs.Prelude.{◌≡◌};

use crate::digits::number_of;
use crate::fault::ReadFault;

/// A part of a text, and its place: how many bytes of the text stand before it.
#[derive(Clone, Copy, Debug, PartialEq, Eq)]
pub struct Part<'t> {
    pub bytes: &'t [u8],
    pub place: usize,
}

/// A word of a text.
#[derive(Clone, Copy, Debug, PartialEq, Eq)]
pub enum Word<'t> {
    /// One byte that is no digit.
    Letter(Part<'t>),
    /// Digits, as many as stand together.
    Number(Part<'t>),
}

impl Word<'_> {
    /// The letter; a number is none, nor is a part of another size than one byte.
    pub fn letter(&self) -> Result<char, ReadFault>
        ensures { result ≡ letter_in (seen self.now) }
    {
        match *self {
            Word::Letter(Part { bytes: [b], .. }) => Ok(char::from(*b)),
            _ => Err(ReadFault::Unreadable),
        }
    }

    /// The number, if it has no leading zero and does not pass 65,535; a letter is none.
    pub fn number(&self) -> Result<u16, ReadFault>
        ensures { result ≡ number_in (seen self.now) }
    {
        match *self {
            Word::Letter(_) => Err(ReadFault::Unreadable),
            Word::Number(part) => number_of(part.bytes),
        }
    }

    /// How many bytes the word has.
    pub fn size(&self) -> usize
        ensures { result ≡ size_of (seen self.now) }
    {
        match *self {
            Word::Letter(part) | Word::Number(part) => part.bytes.len(),
        }
    }
}
