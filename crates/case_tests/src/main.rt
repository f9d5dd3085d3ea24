// Case files whole and broken, at each limit and just beyond it: what is said of each.
#![tactic(auto)]

use casefile::file::CaseFile;
use inspect::report::inspect;
use kb::check::check_base;
use kb::counts::Counts;
use kb::fault::{BaseFault, RowList};
use std::alloc::{AllocError, Global};

// One individual, one role; TOP, NAME, SOME of role 0 and concept 3; concept 2 of 0; inclusion (0, 4); key 0, 0, (0, 0).
const ONE_INDIVIDUAL: [u16; 26] = [
    0, 0, 0, 1, 0, 0, 3, 0, 3, 0, 2, 0, 0, 0, 4, 0, 0, 1, 0, 0, 0, 0, 0, 0, 0, 0,
];

// A row of every kind, with numbers that are not needed.
const EVERY_KIND: [u16; 74] = [
    0, 5, 5, 1, 5, 5, 2, 2, 3, 3, 1, 5, // entries
    0, 2, 1, 9, 1, 1, 0, 1, 2, 0, 1, 9, 3, 1, 0, 9, // assertions
    6, 7, // inclusion
    2, 4, 1, 0, 1, 9, 9, 9, 9, 9, 9, // keys
    2, 4, 2, 0, 1, 1, 0, 9, 9, 9, 9, 2, 4, 3, 0, 1, 1, 0, 1, 1, 9, 9, 2, 4, 4, 0, 1, 1, 0, 1, 1, 0,
    0,
];

// Rows of no listed kind or count.
const UNLISTED: [u16; 21] = [
    0, 0, 0, 7, 1, 2, 8, 1, 2, 3, 1, 2, 6, 1, 2, 3, 4, 5, 6, 7, 8,
];

const LENGTHS: [usize; 10] = [0, 1, 2, 11, 12, 13, 63, 64, 65, 66];

// Bases of given counts whose every row is in range.
const SIZES: [(&str, [u16; 6]); 24] = [
    ("no counts at all", [0, 0, 0, 0, 0, 0]),
    ("one of each name", [1, 1, 1, 0, 0, 0]),
    ("0 individuals", [0, 1, 1, 0, 0, 0]),
    ("511 individuals", [511, 1, 1, 0, 0, 0]),
    ("512 individuals", [512, 1, 1, 0, 0, 0]),
    ("513 individuals", [513, 1, 1, 0, 0, 0]),
    ("0 roles", [1, 0, 1, 0, 0, 0]),
    ("64 roles", [1, 64, 1, 0, 0, 0]),
    ("65 roles", [1, 65, 1, 0, 0, 0]),
    ("0 entries", [1, 1, 0, 0, 0, 0]),
    ("511 entries", [1, 1, 511, 0, 0, 0]),
    ("512 entries", [1, 1, 512, 0, 0, 0]),
    ("513 entries", [1, 1, 513, 0, 0, 0]),
    ("1023 assertions", [1, 1, 1, 1023, 0, 0]),
    ("1024 assertions", [1, 1, 1, 1024, 0, 0]),
    ("1025 assertions", [1, 1, 1, 1025, 0, 0]),
    ("256 inclusions", [1, 1, 1, 0, 256, 0]),
    ("257 inclusions", [1, 1, 1, 0, 257, 0]),
    ("32 keys", [1, 1, 1, 0, 0, 32]),
    ("33 keys", [1, 1, 1, 0, 0, 33]),
    ("all at their limits", [512, 64, 512, 1024, 256, 32]),
    ("16384 bytes", [1, 1, 2, 2045, 0, 0]),
    ("16386 bytes", [1, 1, 2729, 0, 0, 0]),
    ("65535 individuals", [65535, 1, 1, 0, 0, 0]),
];

// Entries, with one role: kind and two numbers each.
const ENTRIES: [(&str, &[u16]); 15] = [
    ("TOP", &[0, 0, 0]),
    ("TOP with numbers that it does not need", &[0, 7, 9]),
    ("NAME first", &[1, 0, 0]),
    ("BOTH first", &[2, 0, 0]),
    ("SOME first", &[3, 0, 0]),
    ("TOP second", &[0, 0, 0, 0, 0, 0]),
    ("BOTH of earlier concepts", &[0, 0, 0, 2, 0, 1]),
    ("BOTH of its own first", &[0, 0, 0, 2, 2, 0]),
    ("BOTH of its own second", &[0, 0, 0, 2, 0, 2]),
    ("SOME of an earlier concept", &[0, 0, 0, 3, 0, 1]),
    ("SOME of its own", &[0, 0, 0, 3, 0, 2]),
    ("SOME of a role that is not there", &[0, 0, 0, 3, 1, 0]),
    ("kind 4", &[0, 0, 0, 4, 0, 0]),
    ("kind 65535", &[0, 0, 0, 65535, 0, 0]),
    ("two out of range", &[0, 0, 0, 1, 0, 0, 9, 0, 0, 8, 0, 0]),
];

// Assertions, over TOP and NAME, two roles and two individuals: kind and three numbers each.
const ASSERTIONS: [(&str, &[u16]); 16] = [
    ("concept 3 of individual 1", &[0, 3, 1, 0]),
    ("a number that it does not need", &[0, 3, 1, 9]),
    ("concept 4", &[0, 4, 1, 0]),
    ("concept of individual 2", &[0, 3, 2, 0]),
    ("role 1 from 0 to 1", &[1, 1, 0, 1]),
    ("role 2", &[1, 2, 0, 1]),
    ("role from 2", &[1, 1, 2, 1]),
    ("role to 2", &[1, 1, 0, 2]),
    ("0 same as 1", &[2, 0, 1, 0]),
    ("2 same as 1", &[2, 2, 1, 0]),
    ("0 same as 2", &[2, 0, 2, 0]),
    ("0 different from 1", &[3, 0, 1, 0]),
    ("2 different from 1", &[3, 2, 1, 0]),
    ("0 different from 2", &[3, 0, 2, 0]),
    ("kind 4", &[4, 0, 0, 0]),
    ("second out of range", &[0, 0, 0, 0, 0, 4, 0, 0]),
];

// Inclusions, over the same.
const INCLUSIONS: [(&str, &[u16]); 4] = [
    ("3 in 2", &[3, 2]),
    ("4 in 2", &[4, 2]),
    ("3 in 4", &[3, 4]),
    ("second out of range", &[0, 0, 0, 5]),
];

// Keys, over the same: classes, count, four pairs.
const KEYS: [(&str, &[u16]); 12] = [
    ("one pair", &[3, 2, 1, 1, 0, 0, 0, 0, 0, 0, 0]),
    (
        "one pair and numbers that it does not need",
        &[3, 2, 1, 1, 0, 9, 9, 9, 9, 9, 9],
    ),
    ("four pairs", &[3, 2, 4, 1, 0, 0, 1, 1, 1, 0, 0]),
    ("first class", &[4, 2, 1, 1, 0, 0, 0, 0, 0, 0, 0]),
    ("second class", &[3, 4, 1, 1, 0, 0, 0, 0, 0, 0, 0]),
    (
        "left role of the first pair",
        &[3, 2, 1, 2, 0, 0, 0, 0, 0, 0, 0],
    ),
    (
        "right role of the second pair",
        &[3, 2, 2, 0, 0, 0, 2, 0, 0, 0, 0],
    ),
    (
        "left role of the third pair",
        &[3, 2, 3, 0, 0, 0, 0, 2, 0, 0, 0],
    ),
    (
        "right role of the fourth pair",
        &[3, 2, 4, 0, 0, 0, 0, 0, 0, 0, 2],
    ),
    ("no pair", &[3, 2, 0, 0, 0, 0, 0, 0, 0, 0, 0]),
    ("five pairs", &[3, 2, 5, 0, 0, 0, 0, 0, 0, 0, 0]),
    ("65535 pairs", &[3, 2, 65535, 0, 0, 0, 0, 0, 0, 0, 0]),
];

fn push_numbers(bytes: &mut Vec<u8>, numbers: &[u16]) -> Result<(), AllocError> {
    for n in numbers {
        bytes.extend_from_slice(&n.to_be_bytes())?;
    }
    Ok(())
}

fn push_rows(bytes: &mut Vec<u8>, row: &[u16], count: u16) -> Result<(), AllocError> {
    for _ in 0..count {
        push_numbers(bytes, row)?;
    }
    Ok(())
}

// A file with these counts: TOP and names, then rows about the first names only.
fn plain(heap: Global, sizes: &[u16; 6]) -> Result<Vec<u8>, AllocError> {
    let mut bytes = Vec::new(heap);
    let [_, _, entries, assertions, inclusions, keys] = *sizes;
    push_numbers(&mut bytes, sizes)?;
    push_rows(&mut bytes, &[0, 0, 0], entries.min(1))?;
    push_rows(&mut bytes, &[1, 0, 0], entries.saturating_sub(1))?;
    push_rows(&mut bytes, &[0, 0, 0, 0], assertions)?;
    push_rows(&mut bytes, &[0, 0], inclusions)?;
    push_rows(&mut bytes, &[0, 0, 1, 0, 0, 0, 0, 0, 0, 0, 0], keys)?;
    Ok(bytes)
}

fn file_of(heap: Global, header: &[u16; 6], rows: &[u16]) -> Result<Vec<u8>, AllocError> {
    let mut bytes = Vec::new(heap);
    push_numbers(&mut bytes, header)?;
    push_numbers(&mut bytes, rows)?;
    Ok(bytes)
}

// Says in words of its own what `inspect` says too, so that these lines depend on no other crate's printing.
fn show_base(
    rt: &HostRuntime,
    name: &str,
    answer: Result<Counts, BaseFault>,
) -> anyhow::Result<()> {
    match answer {
        Ok(_) => println!(rt; "{name}: accepted")?,
        Err(fault @ BaseFault::Row(list, k)) => {
            println!(rt;
                "{name}: refused {} list {} row {k}",
                fault.number(),
                list.number()
            )?
        }
        Err(fault) => println!(rt; "{name}: refused {}", fault.number())?,
    }
    Ok(())
}

fn show(rt: &HostRuntime, name: &str, bytes: &[u8]) -> anyhow::Result<()> {
    let file = CaseFile::new(bytes);
    match file.check() {
        Ok(()) => show_base(rt, name, check_base(&file)),
        Err(fault) => {
            println!(rt; "{name}: refused {}", fault.number())?;
            Ok(())
        }
    }
}

fn sizes(rt: &HostRuntime) -> anyhow::Result<()> {
    for (name, sizes) in SIZES {
        show(rt, name, plain(rt.alloc(), &sizes)?.as_slice())?;
    }
    Ok(())
}

// How many numbers a row of a list has.
fn width(list: RowList) -> usize {
    match list {
        RowList::Entries => 3,
        RowList::Assertions => 4,
        RowList::Inclusions => 2,
        RowList::Keys => 11,
    }
}

// The numbers before the rows of a list: header and, before other rows than entries, the entries TOP and NAME.
fn before(list: RowList, count: u16) -> ([u16; 6], &'static [u16]) {
    match list {
        RowList::Entries => ([1, 1, count, 0, 0, 0], &[]),
        RowList::Assertions => ([2, 2, 2, count, 0, 0], &[0, 0, 0, 1, 0, 0]),
        RowList::Inclusions => ([2, 2, 2, 0, count, 0], &[0, 0, 0, 1, 0, 0]),
        RowList::Keys => ([2, 2, 2, 0, 0, count], &[0, 0, 0, 1, 0, 0]),
    }
}

fn rows(rt: &HostRuntime, cases: &[(&str, &[u16])], list: RowList) -> anyhow::Result<()> {
    for (name, numbers) in cases {
        let count = (numbers.len() / width(list).max(1)).min(9) as u16;
        let (header, entries) = before(list, count);
        let mut bytes = file_of(rt.alloc(), &header, entries)?;
        push_numbers(&mut bytes, numbers)?;
        show(rt, name, bytes.as_slice())?;
    }
    Ok(())
}

// The one-individual case, cut short, whole, and with bytes behind its end.
fn lengths(rt: &HostRuntime) -> anyhow::Result<()> {
    let mut bytes = file_of(rt.alloc(), &[1, 1, 3, 1, 1, 1], &ONE_INDIVIDUAL)?;
    push_numbers(&mut bytes, &[0])?;
    for length in LENGTHS {
        let name = format!(in rt.alloc(); "{length} bytes of 64")?;
        let end = bytes.len().min(length);
        show(rt, name.as_str(), &bytes.as_slice()[..end])?;
    }
    Ok(())
}

fn print_report(rt: &HostRuntime, header: &[u16; 6], rows: &[u16]) -> anyhow::Result<()> {
    let bytes = file_of(rt.alloc(), header, rows)?;
    rt.print(inspect(rt.alloc(), bytes.as_slice())?)?;
    Ok(())
}

fn reports(rt: &HostRuntime) -> anyhow::Result<()> {
    print_report(rt, &[1, 1, 3, 1, 1, 1], &ONE_INDIVIDUAL)?;
    print_report(rt, &[2, 2, 4, 4, 1, 4], &EVERY_KIND)?;
    print_report(rt, &[1, 1, 2, 1, 0, 1], &UNLISTED)?;
    print_report(rt, &[1, 1, 3, 1, 1, 2], &ONE_INDIVIDUAL)
}

fn main(rt: HostRuntime) -> anyhow::Result<()> {
    lengths(&rt)?;
    sizes(&rt)?;
    rows(&rt, &ENTRIES, RowList::Entries)?;
    rows(&rt, &ASSERTIONS, RowList::Assertions)?;
    rows(&rt, &INCLUSIONS, RowList::Inclusions)?;
    rows(&rt, &KEYS, RowList::Keys)?;
    reports(&rt)
}
