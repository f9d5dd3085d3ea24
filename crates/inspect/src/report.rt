// What is printed of a case file.
ghost use Rattle.inspect.specs.Report.{report_text};
ghost use Rattle.std.specs.Prelude.{◌≡◌, IfOk, string_bytes};

use crate::answer::Answer;
use crate::lists::Contents;
use casefile::file::CaseFile;
use std::alloc::Global;
use std::fmt;

/// The text that tells what a case file holds and, last, whether it is accepted; an error only for want of memory.
pub fn inspect(heap: Global, bytes: &[u8]) -> Result<String, fmt::Error>
    ensures { IfOk result (λ text. string_bytes text ≡ report_text bytes.now) }
{
    let file = CaseFile::new(bytes);
    Ok(format!(in heap; "{}{}", Contents(&file), Answer(&file))?)
}
