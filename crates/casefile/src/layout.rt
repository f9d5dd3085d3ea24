// Where the sections of a case file stand, in numbers: a header of six, then entries of three numbers each, assertions of
// four, inclusions of two and keys of eleven.
ghost use Rattle.casefile.specs.Layout.{assertions_at, end_at, entries_at, inclusions_at, keys_at};
ghost use Rattle.std.specs.Prelude.{◌≡◌, ◌≤◌, ◌+◌, ◌*◌};

use kb::counts::Counts;

// Rows of N numbers each, one behind the other from number `at` of the file on.
// No file announces more than 1,310,706 numbers: the header's six, and 20 for each of 65,535 rows of every list.
#[derive(Clone, Copy)]
pub(crate) struct Section<const N: usize> {
    pub(crate) at: usize,
    pub(crate) rows: u16,
    ghost fits: { at + N * rows ≤ 1310706 },
}

impl<const N: usize> Section<N> {
    // Where the next section begins.
    fn end(&self) -> usize
        ensures { result ≡ self.now.at + N * self.now.rows }
    {
        self.at + N * usize::from(self.rows)
    }

    // The section of rows of M numbers each behind this one.
    fn then<const M: usize>(&self, rows: u16) -> Section<M>
        requires { self.now.at + N * self.now.rows + M * rows ≤ 1310706 }
        ensures at { result.at ≡ self.now.at + N * self.now.rows }
        ensures rows { result.rows ≡ rows }
    {
        Section {
            at: self.end(),
            rows,
        }
    }
}

pub(crate) fn entries(counts: Counts) -> Section<3>
    ensures at { result.at ≡ entries_at }
    ensures rows { result.rows ≡ counts.entries }
{
    Section {
        at: 6,
        rows: counts.entries,
    }
}

pub(crate) fn assertions(counts: Counts) -> Section<4>
    ensures at { result.at ≡ assertions_at counts }
    ensures rows { result.rows ≡ counts.assertions }
{
    entries(counts).then(counts.assertions)
}

pub(crate) fn inclusions(counts: Counts) -> Section<2>
    ensures at { result.at ≡ inclusions_at counts }
    ensures rows { result.rows ≡ counts.inclusions }
{
    assertions(counts).then(counts.inclusions)
}

pub(crate) fn keys(counts: Counts) -> Section<11>
    ensures at { result.at ≡ keys_at counts }
    ensures rows { result.rows ≡ counts.keys }
{
    inclusions(counts).then(counts.keys)
}

/// How many numbers a file with these counts has.
pub fn end_at(counts: &Counts) -> usize
    ensures value { result ≡ end_at counts.now }
    ensures bound { result ≤ 1310706 }
{
    keys(*counts).end()
}
