// All that a base holds: its counts, then list by list, a line for each row.
ghost use Rattle.inspect.specs.Lists.{base_text, count_lines, list_text, row_text};
ghost use Rattle.std.specs.Prelude.{Some};

use crate::words::Numbered;
use kb::base::Base;
use kb::counts::Counts;
use kb::fault::RowList;
use std::fmt::{self, Display};

// The counts of a base, in two lines.
#[derive(Clone, Copy)]
struct CountLines(Counts);

impl fmt::Display for CountLines {
    ghost output = { λ lines. Some (count_lines lines.0) };

    fn fmt<W: fmt::Write>(&self, f: &mut fmt::Formatter<W>) -> fmt::Result {
        let n = self.0;
        write!(
            f,
            "individuals {}, roles {}, entries {}\n",
            n.individuals, n.roles, n.entries
        )?;
        write!(
            f,
            "assertions {}, inclusions {}, keys {}\n",
            n.assertions, n.inclusions, n.keys
        )
    }
}

// Row k of a list, as a line; a row that is not there has none. No `map_or`: it would print from its closure, and says nothing of
// what is printed where the closure is not called.
#[derive(Clone, Copy)]
struct Row<'b, B>(&'b B, RowList, u16);

impl<B: Base> fmt::Display for Row<'_, B> {
    ghost output = { λ row. Some (row_text (B.meaning row.0.now) row.1 row.2) };

    fn fmt<W: fmt::Write>(&self, f: &mut fmt::Formatter<W>) -> fmt::Result {
        let Row(base, list, k) = *self;
        let n = usize::from(k);
        match list {
            RowList::Entries => match base.entry(n) {
                Ok(row) => Numbered(k, row).fmt(f),
                Err(_) => Ok(()),
            },
            RowList::Assertions => match base.assertion(n) {
                Ok(row) => Numbered(k, row).fmt(f),
                Err(_) => Ok(()),
            },
            RowList::Inclusions => match base.inclusion(n) {
                Ok(row) => Numbered(k, row).fmt(f),
                Err(_) => Ok(()),
            },
            RowList::Keys => match base.key(n) {
                Ok(row) => Numbered(k, row).fmt(f),
                Err(_) => Ok(()),
            },
        }
    }
}

// The rows of a list, a line each.
#[derive(Clone, Copy)]
struct Rows<'b, B>(&'b B, RowList);

impl<B: Base> fmt::Display for Rows<'_, B> {
    ghost output = { λ rows. Some (list_text (B.meaning rows.0.now) rows.1) };

    fn fmt<W: fmt::Write>(&self, f: &mut fmt::Formatter<W>) -> fmt::Result {
        let Rows(base, list) = *self;
        for k in 0..base.counts().of(list) {
            Row(base, list, k).fmt(f)?;
        }
        Ok(())
    }
}

// All that a base holds.
#[derive(Clone, Copy)]
pub(crate) struct Contents<'b, B>(pub &'b B);

impl<B: Base> fmt::Display for Contents<'_, B> {
    ghost output = { λ all. Some (base_text (B.meaning all.0.now)) };

    fn fmt<W: fmt::Write>(&self, f: &mut fmt::Formatter<W>) -> fmt::Result {
        let base = self.0;
        CountLines(base.counts()).fmt(f)?;
        Rows(base, RowList::Entries).fmt(f)?;
        Rows(base, RowList::Assertions).fmt(f)?;
        Rows(base, RowList::Inclusions).fmt(f)?;
        Rows(base, RowList::Keys).fmt(f)
    }
}
