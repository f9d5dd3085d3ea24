// The three sorts of names of the logic, each numbered from 0 and never taken for one another.
ghost use Rattle.std.specs.Prelude.{◌≡◌};
ghost use Rattle.kb.specs.Names.{OtherOfEntry, complement, entry_number};

/// An individual of a base or a sheet.
#[derive(Clone, Copy, Debug, Default, PartialEq, Eq, PartialOrd, Ord)]
pub struct Individual(pub u16);

/// A role of a base.
#[derive(Clone, Copy, Debug, Default, PartialEq, Eq, PartialOrd, Ord)]
pub struct Role(pub u16);

/// A concept. Entry k of the lexicon gives two: 2k is the entry itself, 2k+1 its complement.
#[derive(Clone, Copy, Debug, Default, PartialEq, Eq, PartialOrd, Ord)]
pub struct Concept(pub u16);

impl Concept {
    /// The other concept of the same entry.
    pub fn complement(self) -> Concept
        ensures value { result ≡ complement self }
        ensures means { OtherOfEntry self result }
    {
        if self.0 % 2 == 0 {
            Concept(self.0 + 1)
        } else {
            Concept(self.0 - 1)
        }
    }

    /// The number of the entry that gives this concept.
    pub fn entry_number(self) -> usize
        ensures { result ≡ entry_number self }
    {
        usize::from(self.0 / 2)
    }
}
