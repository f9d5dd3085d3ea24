// The last line: whether a file is accepted.
ghost use Rattle.inspect.specs.Report.{answer_line, base_answer};
ghost use Rattle.std.specs.Prelude.{Some};

use casefile::file::CaseFile;
use kb::check::check_base;
use kb::counts::Counts;
use kb::fault::BaseFault;
use std::fmt::{self, Display};

// The answer on a base that was read.
#[derive(Clone, Copy)]
struct BaseAnswer(Result<Counts, BaseFault>);

impl fmt::Display for BaseAnswer {
    ghost output = { λ answer. Some (base_answer answer.0) };

    fn fmt<W: fmt::Write>(&self, f: &mut fmt::Formatter<W>) -> fmt::Result {
        match self.0 {
            Ok(_) => write!(f, "accepted\n"),
            Err(fault @ BaseFault::Size) => write!(f, "refused {}\n", fault.number()),
            Err(fault @ BaseFault::Row(list, k)) => write!(
                f,
                "refused {} list {} row {k}\n",
                fault.number(),
                list.number()
            ),
        }
    }
}

// The answer on a file: its own fault if it is broken, else the answer on its base.
#[derive(Clone, Copy)]
pub(crate) struct Answer<'f, 'b>(pub &'f CaseFile<'b>);

impl fmt::Display for Answer<'_, '_> {
    ghost output = { λ answer. Some (answer_line answer.0.now.bytes.now) };

    fn fmt<W: fmt::Write>(&self, f: &mut fmt::Formatter<W>) -> fmt::Result {
        match self.0.check() {
            Ok(()) => BaseAnswer(check_base(self.0)).fmt(f),
            Err(fault) => write!(f, "refused {}\n", fault.number()),
        }
    }
}
