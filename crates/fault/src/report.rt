// Answers as they are printed.
ghost use Rattle.fault.specs.Reports.{report_text};

use crate::Fault;
use std::fmt;

// What was found, or the fault for which it was not: prints as the one or as the other.
#[derive(Clone, Copy)]
pub struct Report<T> {
    pub found: Result<T, Fault>,
}

impl<T: fmt::Display> fmt::Display for Report<T> {
    ghost output = { λ r. report_text T.output r.found };

    fn fmt<W: fmt::Write>(&self, f: &mut fmt::Formatter<W>) -> fmt::Result {
        match &self.found {
            Ok(found) => write!(f, "{found}"),
            Err(fault) => write!(f, "{fault}"),
        }
    }
}
