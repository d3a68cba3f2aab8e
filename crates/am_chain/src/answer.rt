//! Why a command stops, with which status, and the one line that it leaves on standard error.
ghost use Rattle.std.specs.Prelude.{◌≡◌, ◌++◌, Some, None, IfOk, OnOk, option_map, string_bytes, codes};
ghost use Rattle.am_report.specs.ReportTexts.{refusal_text};
ghost use Rattle.am_chain.specs.Answers as said;
ghost use Rattle.am_chain.specs.Answers.{said_of, refusal_line, subject, reason_text, line, status};
ghost use Rattle.am_chain.specs.Shown.{reason_shown, stop_shown, IsAnswered, file_answer, capture_answer, stream_answer, record_answer, domain_answer, report_answer};

use am_base::FileFault;
use am_domain::{Domain, DomainError};
use am_insert::InsertError;
use am_meter::MeterError;
use am_pcap::{CapError, FileError};
use am_report::{Refusal, ReportError};
use std::alloc::{AllocError, Global};
use std::fmt::Write;

/// Why an input is refused. Each owns the name that it tells.
#[derive(Debug, Drop)]
pub enum Reason {
    /// Its file has more bytes than its limit.
    TooLong,
    /// Its bytes are no capture.
    BadCapture { error: CapError },
    /// The headers of the record of this number are cut: bytes that may hold a mark were not captured.
    HeadersCut { number: u64 },
    /// Its bytes are no domain file.
    BadDomain { error: DomainError },
    /// No mark can be put into the packet of the record of this number.
    NotInserted { number: u64, error: InsertError },
    /// The record of this number has no room for a mark.
    RecordFull { number: u64 },
    /// The domain has no node of the name that was asked for.
    UnknownNode,
    /// Its bytes are no report; where the rows end early, with the name of the flow of the row that is wanted.
    BadReport { error: ReportError, flow: String },
    /// The node of this name has a report already.
    ReportTwice { node: String },
    /// No report is of the node of this name.
    NoReport { node: String },
}

/// Why a record of a capture isn't printed.
#[derive(Debug, Drop)]
pub enum Unprinted {
    /// It is refused.
    Refused { reason: Reason },
    /// There was not enough memory.
    NoMemory,
}

/// Why a command stops. Each owns the name that it tells.
#[derive(Debug, Drop)]
pub enum Stop {
    /// The words are no command.
    NoCommand,
    /// No file has this name.
    Missing {
        name: String,
    },
    /// An input is refused: the file of this name, or what has no file.
    Refused {
        name: Option<String>,
        reason: Reason,
    },
    /// This file could not be opened or read.
    ReadFault {
        name: String,
    },
    /// The output could not be written.
    WriteFault,
    /// There was not enough memory.
    NoMemory,
}

impl Stop {
    /// No file has this name; or there was no memory to keep it.
    pub fn missing(alloc: Global, name: &str) -> Stop
        ensures { IsAnswered (said.Answer.Ended (said.Ending.Missing name.now))
            (stop_shown result) }
    {
        match String::from_str(alloc, name) {
            Ok(name) => Stop::Missing { name },
            Err(_) => Stop::NoMemory,
        }
    }

    /// This file is refused; or there was no memory to keep its name.
    pub fn refused(alloc: Global, name: &str, reason: Reason) -> Stop
        ensures { IsAnswered (said.Answer.Ended (said.Ending.Refused (Some name.now)
            (reason_shown reason)))
            (stop_shown result) }
    {
        match String::from_str(alloc, name) {
            Ok(name) => Stop::Refused {
                name: Some(name),
                reason,
            },
            Err(_) => Stop::NoMemory,
        }
    }

    /// This file could not be opened or read; or there was no memory to keep its name.
    pub fn read_fault(alloc: Global, name: &str) -> Stop
        ensures { IsAnswered (said.Answer.ReadFault name.now) (stop_shown result) }
    {
        match String::from_str(alloc, name) {
            Ok(name) => Stop::ReadFault { name },
            Err(_) => Stop::NoMemory,
        }
    }

    /// This file could not be read whole.
    pub fn of_file(alloc: Global, name: &str, fault: FileFault) -> Stop
        ensures { IsAnswered (file_answer name.now fault) (stop_shown result) }
    {
        match fault {
            FileFault::Missing => Stop::missing(alloc, name),
            FileFault::ReadFault => Stop::read_fault(alloc, name),
            FileFault::TooLong => Stop::refused(alloc, name, Reason::TooLong),
            FileFault::Memory => Stop::NoMemory,
        }
    }

    /// This capture could not be opened or read on.
    pub fn of_capture(alloc: Global, name: &str, error: FileError) -> Stop
        ensures { IsAnswered (capture_answer name.now error) (stop_shown result) }
    {
        match error {
            FileError::Missing => Stop::missing(alloc, name),
            FileError::ReadFault => Stop::read_fault(alloc, name),
            FileError::TooLong => Stop::refused(alloc, name, Reason::TooLong),
            FileError::Bad(error) => Stop::refused(alloc, name, Reason::BadCapture { error }),
            FileError::Memory => Stop::NoMemory,
        }
    }

    /// The marked records of this capture could not be given.
    pub fn of_stream(alloc: Global, name: &str, error: MeterError) -> Stop
        ensures { IsAnswered (stream_answer name.now error) (stop_shown result) }
    {
        match error {
            MeterError::File(error) => Stop::of_capture(alloc, name, error),
            MeterError::HeadersCut { number } => {
                Stop::refused(alloc, name, Reason::HeadersCut { number })
            }
        }
    }

    /// A record of this capture isn't printed.
    pub fn of_record(alloc: Global, name: &str, error: Unprinted) -> Stop
        ensures { IsAnswered (record_answer name.now error) (stop_shown result) }
    {
        match error {
            Unprinted::Refused { reason } => Stop::refused(alloc, name, reason),
            Unprinted::NoMemory => Stop::NoMemory,
        }
    }

    /// The bytes of this file are no domain file.
    pub fn of_domain(alloc: Global, name: &str, error: DomainError) -> Stop
        ensures { IsAnswered (domain_answer name.now error) (stop_shown result) }
    {
        match error {
            DomainError::Memory => Stop::NoMemory,
            _ => Stop::refused(alloc, name, Reason::BadDomain { error }),
        }
    }

    /// The bytes of this file are no report of the domain.
    pub fn of_report(alloc: Global, name: &str, domain: &Domain, error: ReportError) -> Stop
        ensures { IsAnswered (report_answer name.now domain.now error) (stop_shown result) }
    {
        if let ReportError::Memory = error {
            return Stop::NoMemory;
        }
        match String::from_str(alloc, error.named_flow(domain)) {
            Ok(flow) => Stop::refused(alloc, name, Reason::BadReport { error, flow }),
            Err(_) => Stop::NoMemory,
        }
    }

    /// This file is a second report of the node of this name.
    pub fn report_twice(alloc: Global, name: &str, node: &str) -> Stop
        ensures { IsAnswered (said.Answer.Ended (said.Ending.Refused (Some name.now)
            (said.Reason.ReportTwice node.now)))
            (stop_shown result) }
    {
        match String::from_str(alloc, node) {
            Ok(node) => Stop::refused(alloc, name, Reason::ReportTwice { node }),
            Err(_) => Stop::NoMemory,
        }
    }

    /// No report is of the node of this name.
    pub fn no_report(alloc: Global, node: &str) -> Stop
        ensures { IsAnswered (said.Answer.Ended (said.Ending.Refused None
            (said.Reason.NoReport node.now)))
            (stop_shown result) }
    {
        match String::from_str(alloc, node) {
            Ok(node) => Stop::Refused {
                name: None,
                reason: Reason::NoReport { node },
            },
            Err(_) => Stop::NoMemory,
        }
    }

    /// The domain has no node of the name that was asked for.
    pub fn unknown_node() -> Stop
        ensures { stop_shown result
            ≡ said.Answer.Ended (said.Ending.Refused None said.Reason.UnknownNode) }
    {
        Stop::Refused {
            name: None,
            reason: Reason::UnknownNode,
        }
    }

    /// The status of the program.
    pub fn status(&self) -> u8
        ensures { result ≡ status (stop_shown self.now) }
    {
        match self {
            Stop::NoCommand => 2,
            Stop::Missing { .. } => 4,
            Stop::Refused { .. } => 3,
            Stop::ReadFault { .. } => 5,
            Stop::WriteFault => 6,
            Stop::NoMemory => 7,
        }
    }

    /// The line on standard error.
    pub fn line(&self, alloc: Global) -> Result<String, AllocError>
        ensures { IfOk result (λ text. string_bytes text ≡ line (stop_shown self.now)) }
    {
        match self {
            Stop::NoCommand => String::from_str(alloc, "altmark: usage\n"),
            Stop::Missing { name } => said_of(alloc, name.as_str(), "missing"),
            Stop::Refused { name, reason } => refused_line(alloc, name, reason),
            Stop::ReadFault { name } => said_of(alloc, name.as_str(), "read fault"),
            Stop::WriteFault => String::from_str(alloc, "altmark: write fault\n"),
            Stop::NoMemory => String::from_str(alloc, "altmark: out of memory\n"),
        }
    }
}

// A line that says this of a file.
fn said_of(alloc: Global, name: &str, what: &str) -> Result<String, AllocError>
    ensures { IfOk result (λ text. string_bytes text ≡ said_of name.now what.now) }
{
    let mut line = String::new(alloc);
    write!(line, "altmark: {name}: {what}\n")?;
    Ok(line)
}

// The line of an input that is refused.
fn refused_line(alloc: Global, name: &Option<String>, reason: &Reason) -> Result<String, AllocError>
    ensures { IfOk result (λ text. string_bytes text
        ≡ refusal_line (option_map (λ n. string_bytes n) name.now) (reason_shown reason.now)) }
{
    let mut line = String::new(alloc);
    line.push_str("altmark: ")?;
    push_subject(&mut line, name, reason)?;
    push_reason(&mut line, reason)?;
    line.push_str("\n")?;
    Ok(line)
}

// Adds what is refused: a file's name, or the word `domain`.
fn push_subject(line: &mut String, name: &Option<String>, reason: &Reason) -> Result<(), AllocError>
    ensures { OnOk result (string_bytes line.new ≡ string_bytes line.old
        ++ subject (option_map (λ n. string_bytes n) name.now) (reason_shown reason.now)) }
{
    let Some(name) = name else {
        return Ok(());
    };
    match reason {
        Reason::BadDomain { .. } => line.push_str("domain: "),
        Reason::TooLong => push_name(line, name.as_str()),
        Reason::BadCapture { .. } => push_name(line, name.as_str()),
        Reason::HeadersCut { .. } => push_name(line, name.as_str()),
        Reason::NotInserted { .. } => push_name(line, name.as_str()),
        Reason::RecordFull { .. } => push_name(line, name.as_str()),
        Reason::UnknownNode => push_name(line, name.as_str()),
        Reason::BadReport { .. } => push_name(line, name.as_str()),
        Reason::ReportTwice { .. } => push_name(line, name.as_str()),
        Reason::NoReport { .. } => push_name(line, name.as_str()),
    }
}

// Adds a file's name.
fn push_name(line: &mut String, name: &str) -> Result<(), AllocError>
    ensures { OnOk result
        (string_bytes line.new ≡ string_bytes line.old ++ (name.now ++ codes ": ")) }
{
    write!(line, "{name}: ")
}

// Adds why an input is refused.
fn push_reason(line: &mut String, reason: &Reason) -> Result<(), AllocError>
    ensures { OnOk result
        (string_bytes line.new ≡ string_bytes line.old ++ reason_text (reason_shown reason.now)) }
{
    match reason {
        Reason::TooLong => line.push_str("too long"),
        Reason::BadCapture { error } => write!(line, "{error}"),
        Reason::HeadersCut { number } => write!(line, "headers of record {number} are cut"),
        Reason::BadDomain { error } => write!(line, "{error}"),
        Reason::NotInserted { number, error } => write!(line, "record {number}: {error}"),
        Reason::RecordFull { number } => write!(line, "record {number}: record full"),
        Reason::UnknownNode => line.push_str("unknown node"),
        Reason::BadReport { error, flow } => push_refusal(line, *error, flow.as_str()),
        Reason::ReportTwice { node } => push_node(line, "second report of node ", node.as_str()),
        Reason::NoReport { node } => push_node(line, "no report of node ", node.as_str()),
    }
}

// Adds why a report is refused.
fn push_refusal(line: &mut String, error: ReportError, flow: &str) -> Result<(), AllocError>
    ensures { OnOk result
        (string_bytes line.new ≡ string_bytes line.old ++ refusal_text error flow.now) }
{
    let refusal = Refusal { error, flow };
    write!(line, "{refusal}")
}

// Adds this of a node.
fn push_node(line: &mut String, what: &str, node: &str) -> Result<(), AllocError>
    ensures { OnOk result
        (string_bytes line.new ≡ string_bytes line.old ++ (what.now ++ node.now)) }
{
    line.push_str(what)?;
    line.push_str(node)
}
