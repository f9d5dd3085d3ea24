// A question over rules over two joined inventories, written as a case file, read back and inspected.
#![tactic(auto)]

use casewriter::writer::write_case;
use inspect::report::inspect;
use inventory::{Columns, Inventory, Record};
use join::Join;
use kb::axioms::RolePair;
use kb::base::Base;
use kb::lexicon::Entry;
use kb::names::{Concept, Individual, Role};
use kb::statement::Statement;
use layers::question::Question;
use layers::rules::Rules;

const COLUMNS: Columns = Columns {
    issuer: Role(0),
    serial: Role(1),
    public_key: Role(2),
};

// Everything, certificates, and certificates of mail servers.
const LEXICON: [Entry; 3] = [Entry::Top, Entry::Name, Entry::Name];

// The left inventory has no values of its own: its two records reach those of the right one, which begin at 2.
const LEFT: [Record; 2] = [
    Record {
        class: Concept(2),
        issuer: 2,
        serial: 3,
        public_key: 5,
    },
    Record {
        class: Concept(4),
        issuer: 2,
        serial: 4,
        public_key: 6,
    },
];

// The right inventory has an issuer, two serial numbers and two public keys.
const RIGHT: [Record; 2] = [
    Record {
        class: Concept(2),
        issuer: 0,
        serial: 1,
        public_key: 3,
    },
    Record {
        class: Concept(2),
        issuer: 0,
        serial: 2,
        public_key: 4,
    },
];

const ISSUERS: RolePair = RolePair {
    left: Role(0),
    right: Role(0),
};

const SERIALS: RolePair = RolePair {
    left: Role(1),
    right: Role(1),
};

// The bytes in hexadecimal, and what they hold as a case file.
fn print_case(rt: &HostRuntime, bytes: &[u8]) -> anyhow::Result<()> {
    for byte in bytes {
        print!(rt; "{byte:02x}")?;
    }
    println!(rt; "")?;
    rt.print(inspect(rt.alloc(), bytes)?)?;
    Ok(())
}

fn write<B: Base>(rt: &HostRuntime, base: &B) -> anyhow::Result<()> {
    let mut buffer = vec![in rt.alloc(); 0; 16384]?;
    match write_case(base, buffer.as_mut_slice()) {
        Ok(length) => {
            println!(rt; "wrote {length}")?;
            let end = length.min(buffer.as_slice().len());
            print_case(rt, &buffer.as_slice()[0..end])
        }
        Err(fault) => {
            println!(rt; "refused {}", fault.number())?;
            Ok(())
        }
    }
}

fn main(rt: HostRuntime) -> anyhow::Result<()> {
    let left = Inventory::new(&LEXICON, 3, COLUMNS, &LEFT, 0);
    let right = Inventory::new(&LEXICON, 3, COLUMNS, &RIGHT, 5);
    let joined = Join::new(left, right);
    println!(rt; "the inventories speak alike: {}", joined.check().is_ok())?;
    let mut rules = Rules::new(joined);
    let key = rules.add_key(Concept(2), Concept(2), ISSUERS);
    println!(rt; "a key by issuer: {}", key.is_ok())?;
    let grown = rules.grow_key(0, SERIALS);
    println!(rt; "and by serial number: {}", grown.is_ok())?;
    write(&rt, &rules)?;
    println!(rt; "are records 0 and 2 one certificate?")?;
    write(
        &rt,
        &Question::new(rules, Statement::Same(Individual(0), Individual(2))),
    )
}
