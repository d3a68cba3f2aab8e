//! What is said of a report that is refused.

ghost use Rattle.std.specs.Prelude.{◌≡◌, Some};
ghost use Rattle.am_report.specs.ReportTexts.{refused_flow, refusal_text};

use crate::error::ReportError;
use am_domain::Domain;
use std::fmt;

/// A refusal with the name of the flow that it names.
#[derive(Clone, Copy)]
pub struct Refusal<'a> {
    pub error: ReportError,
    /// The name of the flow of `Short`; no other refusal names one.
    pub flow: &'a str,
}

impl ReportError {
    /// The name of the flow that the refusal names; nothing where it names none.
    pub fn named_flow<'a>(&self, domain: &'a Domain) -> &'a str
        ensures { result.now ≡ refused_flow domain.now self.now }
    {
        let ReportError::Short { flow, block: _ } = *self else {
            return "";
        };
        match domain.flows().get(flow as usize) {
            Some(flow) => flow.name(),
            None => "",
        }
    }
}

/// Why a report is refused, in a few words: `bad row 7`, or `short: flow voice block 2`.
impl fmt::Display for Refusal<'_> {
    ghost output = { λ r. Some (refusal_text r.error r.flow.now) };

    fn fmt<W: fmt::Write>(&self, f: &mut fmt::Formatter<W>) -> fmt::Result {
        let flow = self.flow;
        match self.error {
            ReportError::BadHeader => f.write_str("bad header"),
            ReportError::BadRow { row } => write!(f, "bad row {row}"),
            ReportError::UnknownNode { row } => write!(f, "row {row}: unknown node"),
            ReportError::OtherNode { row } => write!(f, "row {row}: other node"),
            ReportError::UnknownFlow { row } => write!(f, "row {row}: unknown flow"),
            ReportError::NotInOrder { row } => write!(f, "row {row}: out of order"),
            ReportError::Short { flow: _, block } => write!(f, "short: flow {flow} block {block}"),
            ReportError::Memory => f.write_str("out of memory"),
        }
    }
}
