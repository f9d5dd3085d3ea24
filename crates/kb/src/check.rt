// Which bases are accepted: their counts lie within the limits, and every row is in range.
ghost use Rattle.kb.specs.Check.{Checked, checked_base, checked_list, checked_rows, count_of, row_in_range, sizes_accepted};
ghost use Rattle.kb.specs.First.{first_failing};
ghost use Rattle.std.specs.Prelude.{◌≡◌};

use crate::base::Base;
use crate::counts::Counts;
use crate::fault::{BaseFault, RowList};

impl Counts {
    // 1 to 512 entries, 1 to 64 roles, 1 to 512 individuals, at most 1,024 assertions, 256 inclusions and 32 keys.
    fn accepted(&self) -> bool
        ensures { result ≡ sizes_accepted self.now }
    {
        (1..=512).contains(&self.entries)
            && (1..=64).contains(&self.roles)
            && (1..=512).contains(&self.individuals)
            && self.assertions <= 1024
            && self.inclusions <= 256
            && self.keys <= 32
    }

    /// How many rows a list has.
    pub fn of(&self, list: RowList) -> u16
        ensures { result ≡ count_of self.now list }
    {
        match list {
            RowList::Entries => self.entries,
            RowList::Assertions => self.assertions,
            RowList::Inclusions => self.inclusions,
            RowList::Keys => self.keys,
        }
    }
}

// A base, measured by the counts that it tells.
#[derive(Drop)]
struct Measured<'b, B> {
    base: &'b B,
    counts: Counts,
}

impl<B: Base> Measured<'_, B> {
    // Whether row k of a list is there and in range.
    fn has_row(&self, list: RowList, k: usize) -> bool
        ensures { result ≡ row_in_range self.now.counts (B.meaning self.now.base.now) list k }
    {
        let counts = &self.counts;
        match list {
            RowList::Entries => self.base.entry(k).is_ok_and(|row| counts.has_entry(k, row)),
            RowList::Assertions => self
                .base
                .assertion(k)
                .is_ok_and(|row| counts.has_assertion(row)),
            RowList::Inclusions => self
                .base
                .inclusion(k)
                .is_ok_and(|row| counts.has_inclusion(row)),
            RowList::Keys => self.base.key(k).is_ok_and(|row| counts.has_key(row)),
        }
    }

    // The first row of a list that is out of range.
    fn first_out_of_range(&self, list: RowList) -> Option<u16>
        ensures { result ≡ first_failing (row_in_range self.now.counts (B.meaning self.now.base.now) list) (count_of self.now.counts list) }
    {
        (0..self.counts.of(list)).find(|k| !self.has_row(list, usize::from(*k)))
    }

    fn check_list(&self, list: RowList) -> Result<(), BaseFault>
        ensures { result ≡ checked_list self.now.counts (B.meaning self.now.base.now) list }
    {
        self.first_out_of_range(list)
            .map_or(Ok(()), |k| Err(BaseFault::Row(list, k)))
    }

    // The lists one after the other.
    fn check_rows(&self) -> Result<Counts, BaseFault>
        ensures { result ≡ checked_rows self.now.counts (B.meaning self.now.base.now) }
    {
        self.check_list(RowList::Entries)?;
        self.check_list(RowList::Assertions)?;
        self.check_list(RowList::Inclusions)?;
        self.check_list(RowList::Keys)?;
        Ok(self.counts)
    }
}

/// The counts of an accepted base, or why it is not accepted: a count outside its limits, else the first row out of range.
pub fn check_base<B: Base>(base: &B) -> Result<Counts, BaseFault>
    ensures value { result ≡ checked_base (B.meaning base.now) }
    ensures means { Checked (B.meaning base.now) result }
{
    let counts = base.counts();
    if counts.accepted() {
        Measured { base, counts }.check_rows()
    } else {
        Err(BaseFault::Size)
    }
}
