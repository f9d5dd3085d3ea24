// The program: it reads a case file and prints what a library says of it.
#![tactic(auto)]

use anyhow::anyhow;
use inspect::report::inspect;
use std::fs::File;
use std::io::Read;
use std::process::ExitCode;
use std::{env, io};

const WORDS: &str =
    "mark inspect   tells what the file case.lk in this folder holds, and whether it is accepted";

// One byte more than a case file may have, so that a longer one is seen to be too long.
const MOST: u64 = 16385;

fn read_case(rt: &HostRuntime) -> io::Result<Vec<u8>> {
    let mut bytes = Vec::new(rt.alloc());
    File::open(rt, "case.lk")?
        .take(MOST)
        .read_to_end(&mut bytes)?;
    Ok(bytes)
}

fn inspect_case(rt: &HostRuntime) -> anyhow::Result<()> {
    match read_case(rt) {
        Ok(bytes) => {
            let text = inspect(rt.alloc(), bytes.as_slice())?;
            rt.print(text)?;
            Ok(())
        }
        Err(e) => Err(anyhow!(format!(in rt.alloc(); "case.lk cannot be read: {e}")?)),
    }
}

// One command and no option: a crate for command lines would be no shorter, and would print a help of its own.
fn run(rt: &HostRuntime) -> anyhow::Result<()> {
    let mut words = env::args(rt)?.skip(1);
    let first = words.next();
    let more = words.next().is_some();
    match first {
        Some(word) if word.as_str() == "inspect" && !more => inspect_case(rt),
        _ => {
            rt.println(WORDS)?;
            Ok(())
        }
    }
}

fn main(rt: HostRuntime) -> ExitCode {
    match run(&rt) {
        Ok(()) => ExitCode::SUCCESS,
        Err(e) => {
            // Where standard error cannot be written either, the status alone tells.
            let _ = rt.eprintln(format_args!("mark: {e}"));
            ExitCode::FAILURE
        }
    }
}
