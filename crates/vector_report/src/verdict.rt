// Whether the paths agree with a group.
ghost use Rattle.std.specs.Prelude.{Some};
ghost use Rattle.vector_report.specs.Report.{shown as shown_as};

use std::fmt;

#[derive(Clone, Copy, PartialEq, Eq, Debug)]
pub enum Agreement {
    Same,
    Differs,
}

#[derive(Clone, Copy, PartialEq, Eq, Debug)]
pub struct Verdict {
    pub byte: Agreement,
    pub word: Agreement,
    pub long: Agreement,
}

impl fmt::Display for Agreement {
    ghost output = { λ a. Some (shown_as a) };

    fn fmt<W: fmt::Write>(&self, f: &mut fmt::Formatter<W>) -> fmt::Result {
        match self {
            Agreement::Same => f.write_str("same"),
            Agreement::Differs => f.write_str("differs"),
        }
    }
}
