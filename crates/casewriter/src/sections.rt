// A case file put into a buffer, section by section: each section is given the part of the buffer that begins at its
// offset, and puts its rows into the front of that.
ghost use Rattle.std.specs.Prelude.{◌≡◌, ◌+◌, ◌*◌, ◌≤◌, ◌++◌, length, take, drop};
ghost use Rattle.casefile.specs.Layout.{end_at};
ghost use Rattle.casewriter.specs.Encoding.{bytes_of, case_bytes, found_numbers, row_numbers, section_numbers, width_of};
ghost use Rattle.casewriter.specs.Writing.{over};
ghost use Rattle.casewriter.specs.declared.numbers.Record.{Record};

use crate::numbers::Record;
use crate::put::put_all;
use casefile::layout::end_at;
use kb::base::Base;
use kb::counts::Counts;
use kb::fault::RowList;
use rows::RowFault;

// How many bytes a file with these counts has.
pub(crate) fn case_size(counts: &Counts) -> usize
    ensures { result ≡ 2 * end_at counts.now }
{
    2 * end_at(counts)
}

// A row that was asked for; nothing if there is no such row. Answers how many bytes that took, as the calls below do. No `map_or`:
// it would write from its closure, and says nothing of the buffer where the closure is not called.
fn put_found<const N: usize>(row: Result<Record<N>, RowFault>, out: &mut [u8]) -> usize
    requires { 2 * N ≤ length out.old }
    ensures size { result ≡ length (bytes_of (found_numbers (λ (r : Record N). r.0) row.entry)) }
    ensures bytes { out.new ≡ over (bytes_of (found_numbers (λ (r : Record N). r.0) row.entry)) out.old }
{
    match row {
        Ok(record) => put_all(out, &record.0),
        Err(_) => 0,
    }
}

// Row k of a list; nothing if there is no such row.
fn put_row<B: Base>(base: &B, list: RowList, k: usize, out: &mut [u8]) -> usize
    requires { 2 * width_of list ≤ length out.old }
    ensures size { result ≡ length (bytes_of (row_numbers (B.meaning base.now) list k)) }
    ensures bytes { out.new ≡ over (bytes_of (row_numbers (B.meaning base.now) list k)) out.old }
{
    match list {
        RowList::Entries => put_found(base.entry(k).map(Record::from), out),
        RowList::Assertions => put_found(base.assertion(k).map(Record::from), out),
        RowList::Inclusions => put_found(base.inclusion(k).map(Record::from), out),
        RowList::Keys => put_found(base.key(k).map(Record::from), out),
    }
}

// The rows of a list. The offset of a row is what the calls before it answered. (A `fold` over the offsets was tried: the
// check alone leaves both clauses open, and that the closure may be called at each row.)
fn put_rows<B: Base>(base: &B, list: RowList, out: &mut [u8]) -> usize
    requires { length (bytes_of (section_numbers (B.meaning base.now) list)) ≤ length out.old }
    ensures size { result ≡ length (bytes_of (section_numbers (B.meaning base.now) list)) }
    ensures bytes { out.new ≡ over (bytes_of (section_numbers (B.meaning base.now) list)) out.old }
{
    let mut at = 0;
    for k in 0..base.counts().of(list) {
        at += put_row(base, list, usize::from(k), &mut out[at..]);
    }
    at
}

// The section of a list, put into the part of the buffer from its offset on. Answers the offset of the next section.
fn put_section<B: Base>(base: &B, list: RowList, buffer: &mut [u8], at: usize) -> usize
    requires { at + length (bytes_of (section_numbers (B.meaning base.now) list)) ≤ length buffer.old }
    ensures end { result ≡ at + length (bytes_of (section_numbers (B.meaning base.now) list)) }
    ensures bytes { buffer.new ≡ take at buffer.old ++ over (bytes_of (section_numbers (B.meaning base.now) list)) (drop at buffer.old) }
{
    at + put_rows(base, list, &mut buffer[at..])
}

// The whole file. Answers how many bytes that took.
pub(crate) fn put_case<B: Base>(base: &B, buffer: &mut [u8]) -> usize
    requires { length (case_bytes (B.meaning base.now)) ≤ length buffer.old }
    ensures size { result ≡ length (case_bytes (B.meaning base.now)) }
    ensures bytes { buffer.new ≡ over (case_bytes (B.meaning base.now)) buffer.old }
{
    let entries_at = put_all(buffer, &Record::from(base.counts()).0);
    let assertions_at = put_section(base, RowList::Entries, buffer, entries_at);
    let inclusions_at = put_section(base, RowList::Assertions, buffer, assertions_at);
    let keys_at = put_section(base, RowList::Inclusions, buffer, inclusions_at);
    put_section(base, RowList::Keys, buffer, keys_at)
}
