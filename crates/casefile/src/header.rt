// The numbers of a case file, and its header.
ghost use Rattle.casefile.specs.Files.{file_counts, whole_file};
ghost use Rattle.casefile.specs.Layout.{header_counts};
ghost use Rattle.casefile.specs.Numbers.{numbers};
ghost use Rattle.casefile.specs.Records.{IsRecord};
ghost use Rattle.std.specs.Prelude.{◌≡◌, ◌+◌, ◌<◌, ◌^◌, drop, slice_index};

use crate::file::CaseFile;
use crate::layout::end_at;
use crate::records::Record;
use kb::counts::Counts;
use std::array;

impl CaseFile<'_> {
    // Number i of the file; 0 behind its end.
    fn number(&self, i: usize) -> u16
        ensures { result ≡ slice_index (numbers self.now.bytes.now) i }
    {
        let (numbers, _) = self.bytes.as_chunks::<2>();
        numbers.get(i).map_or(0, |bytes| u16::from_be_bytes(*bytes))
    }

    // The record of N numbers that begins at number `at`.
    pub(crate) fn record<const N: usize>(&self, at: usize) -> Record<N>
        requires { at + N < 2 ^ 32 }
        ensures { IsRecord N (drop at (numbers self.now.bytes.now)) result.0 }
    {
        Record(array::from_fn(|j| self.number(at + j)))
    }

    // The counts that the file announces, whether it keeps to them or not.
    fn announced(&self) -> Counts
        ensures { result ≡ header_counts (numbers self.now.bytes.now) }
    {
        Counts::from(self.record(0))
    }

    pub(crate) fn is_whole(&self) -> bool
        ensures { result ≡ whole_file self.now.bytes.now }
    {
        self.bytes.len() <= 16384 && self.bytes.len() == 2 * end_at(&self.announced())
    }

    // The counts of a whole file; a broken one has none of anything.
    pub(crate) fn header(&self) -> Counts
        ensures { result ≡ file_counts self.now.bytes.now }
    {
        if self.is_whole() {
            self.announced()
        } else {
            Counts::default()
        }
    }
}
