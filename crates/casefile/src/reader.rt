// A case file read as a base, row by row, straight from its bytes.
ghost use Rattle.casefile.specs.Files.{FileChecked, checked_file, file_meaning};
ghost use Rattle.casefile.specs.Numbers.{numbers};
ghost use Rattle.casefile.specs.Owing.{file_owed};
ghost use Rattle.casefile.specs.Records.{IsRecord};
ghost use Rattle.casefile.specs.declared.records.Record.{Record};
ghost use Rattle.std.specs.Prelude.{◌≡◌, ◌+◌, ◌*◌, ◌<◌, ◌≤◌, drop, IfOk, OnErr};

use crate::fault::FileFault;
use crate::file::CaseFile;
use crate::layout::{Section, assertions, entries, inclusions, keys};
use crate::records::Record;
use kb::axioms::{Assertion, Inclusion, Key};
use kb::base::Base;
use kb::counts::Counts;
use kb::lexicon::Entry;
use rows::RowFault;

impl<'a> CaseFile<'a> {
    /// The case file of some bytes.
    pub fn new(bytes: &'a [u8]) -> CaseFile<'a>
        ensures { result.bytes.now ≡ bytes.now }
    {
        CaseFile { bytes }
    }
}

impl CaseFile<'_> {
    /// Whether the file is whole, or broken.
    pub fn check(&self) -> Result<(), FileFault>
        ensures value { result ≡ checked_file self.now.bytes.now }
        ensures means { FileChecked self.now.bytes.now result }
    {
        if self.is_whole() {
            Ok(())
        } else {
            Err(FileFault::Broken)
        }
    }

    // Row n of a section.
    fn row<const N: usize, T: From<Record<N>>>(
        &self,
        section: Section<N>,
        n: usize,
    ) -> Result<T, RowFault>
        ensures found { IfOk result (λ row. (n < section.entry.rows) × (r : Record N) × IsRecord N (drop (section.entry.at + N * n) (numbers self.now.bytes.now)) r.0 × T.from_gives r row) }
        ensures absent { OnErr result (section.entry.rows ≤ n) }
    {
        if n < usize::from(section.rows) {
            Ok(T::from(self.record(section.at + N * n)))
        } else {
            Err(RowFault::NoSuchRow)
        }
    }
}

impl Base for CaseFile<'_> {
    ghost meaning = { λ f. file_meaning f.bytes.now };

    ghost owed = { λ f. file_owed f.bytes.now };

    fn counts(&self) -> Counts {
        self.header()
    }

    fn entry(&self, n: usize) -> Result<Entry, RowFault> {
        self.row(entries(self.header()), n)
    }

    fn assertion(&self, n: usize) -> Result<Assertion, RowFault> {
        self.row(assertions(self.header()), n)
    }

    fn inclusion(&self, n: usize) -> Result<Inclusion, RowFault> {
        self.row(inclusions(self.header()), n)
    }

    fn key(&self, n: usize) -> Result<Key, RowFault> {
        self.row(keys(self.header()), n)
    }
}
