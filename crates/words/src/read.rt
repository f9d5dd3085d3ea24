// Reading the word at a place of a text. A text and a place are asked for, and not the rest of the text: a word tells its place,
// and a place may lie behind the text.
ghost use Rattle.std.specs.Prelude.{◌≡◌, ◌+◌, ◌<◌, ◌≤◌, length, drop, IfOk, OnOk};
ghost use Rattle.std.specs.Result.{result_map_both};
ghost use Rattle.words.specs.Fronts.{NumberRead, front_letter, front_number};
ghost use Rattle.words.specs.Words.{seen, word_at};

use crate::digits::digit_count;
use crate::fault::ReadFault;
use crate::word::{Part, Word};

/// The word that begins at a place: the digits from there on, or else the one byte. Behind the text there is none.
pub fn word_at<'t>(text: &'t [u8], at: usize) -> Result<Word<'t>, ReadFault>
    ensures { result_map_both seen (λ f. f) result ≡ word_at text.now at }
{
    if at >= text.len() {
        return Err(ReadFault::Unreadable);
    }
    let rest = &text[at..];
    let count = digit_count(rest);
    if count == 0 {
        Ok(Word::Letter(Part {
            bytes: &rest[..1],
            place: at,
        }))
    } else {
        Ok(Word::Number(Part {
            bytes: &rest[..count],
            place: at,
        }))
    }
}

/// The letter at a place: one byte that is no digit.
pub fn letter_at(text: &[u8], at: usize) -> Result<char, ReadFault>
    ensures value { result ≡ front_letter (drop at text.now) }
    ensures within { OnOk result (at < length text.now) }
{
    word_at(text, at)?.letter()
}

/// A number at the front of a text, and how many digits it has.
#[derive(Clone, Copy, Debug, PartialEq, Eq)]
pub struct FrontNumber {
    pub value: u16,
    pub size: usize,
}

/// The number at a place.
pub fn number_at(text: &[u8], at: usize) -> Result<FrontNumber, ReadFault>
    ensures value { result ≡ front_number (drop at text.now) }
    ensures within { IfOk result (λ n. at + n.size ≤ length text.now) }
    ensures means { NumberRead (drop at text.now) result }
{
    let word = word_at(text, at)?;
    let value = word.number()?;
    Ok(FrontNumber {
        value,
        size: word.size(),
    })
}
