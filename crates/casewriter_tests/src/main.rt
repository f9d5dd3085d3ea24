// Writes the base of each case into a buffer of 0xee, and prints the answer and the whole buffer after it.
#![tactic(auto)]

mod cases;

use casefile::file::CaseFile;
use cases::{CASES, Case};
use casewriter::fault::WriteFault;
use casewriter::writer::write_case;
use kb::fault::BaseFault;
use std::alloc::{AllocError, Global};
use std::io;

/// The bytes of a case file, two a number, the higher first.
fn file_bytes(heap: Global, numbers: &str) -> Result<Vec<u8>, AllocError> {
    let mut bytes = vec![in heap]?;
    for word in numbers.split_whitespace() {
        let n = word.parse::<u16>().unwrap_or(65535);
        bytes.extend_from_slice(&n.to_be_bytes())?;
    }
    Ok(bytes)
}

fn print_answer(rt: &HostRuntime, answer: Result<usize, WriteFault>) -> io::Result<()> {
    match answer {
        Ok(n) => print!(rt; "wrote {n}"),
        Err(fault @ WriteFault::Base(BaseFault::Row(list, row))) => {
            print!(rt; "refused {} {} {row}", fault.number(), list.number())
        }
        Err(fault) => print!(rt; "refused {}", fault.number()),
    }
}

fn play(rt: &HostRuntime, case: &Case) -> io::Result<()> {
    let file = file_bytes(rt.alloc(), case.file)?;
    let mut buffer = vec![in rt.alloc(); 0xee; case.room]?;
    let answer = write_case(&CaseFile::new(&file), &mut buffer);
    let name = case.name;
    print!(rt; "{name}: ")?;
    print_answer(rt, answer)?;
    print!(rt; ", buffer")?;
    for byte in &buffer {
        print!(rt; " {byte:02x}")?;
    }
    println!(rt; "")
}

fn main(rt: HostRuntime) -> io::Result<()> {
    for case in &CASES {
        play(&rt, case)?;
    }
    Ok(())
}
