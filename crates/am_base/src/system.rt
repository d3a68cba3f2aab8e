//! Real files and the two standard streams. This is the edge where the system is reached: nothing is told of what the
//! files and the streams hold.
//!
//! Each answer of the system goes through one of three functions, `opened`, `read` and `write_to`, whose clauses say what
//! becomes of it. Trusted, and seen by no proof, is what stands before that: that each call asks the system for the named
//! file, for the next bytes of the open one, or to take the piece, and passes on the answer that came; and that the
//! system's answers are right.
ghost use Rattle.std.specs.Prelude.{◌≡◌, ◌≢◌, None, ◌≤◌, ◌<◌, length, IfOk, IfErr, OnErr, IsErr};
ghost use Rattle.std.specs.IoError.{error_kind};
ghost use Rattle.am_base.specs.Counts.{next_count};
ghost use Rattle.am_base.specs.Failing.{faults_after, faults_after_write, faults_after_open, missed_after_open};
ghost use Rattle.am_base.specs.declared.shelf.OpenError.TheVariants.{Missing, Failed};

use crate::shelf::{Fault, OpenError, Shelf};
use crate::sink::Sink;
use std::io::{ErrorKind, Read, Stderr, Stdout};
use std::rt::Files;
use std::{fs, io};

// What an open answers where the system answered this, with the counts of faults and of missing names. A name that the
// system doesn't know is missing. Whatever else it refuses is a fault.
fn opened<F>(answer: io::Result<F>, faults: &mut u64, missed: &mut u64) -> Result<F, OpenError>
    ensures given { IfOk answer (λ file. result ≡ Ok file) }
    ensures missing { IfErr answer (λ error. error_kind error ≡ ErrorKind.NotFound →
        result ≡ Err Missing) }
    ensures failed { IfErr answer (λ error. error_kind error ≢ ErrorKind.NotFound →
        result ≡ Err Failed) }
    ensures faults { faults.new ≡ faults_after_open result faults.old }
    ensures missed { missed.new ≡ missed_after_open result missed.old }
    ensures faults_stay { faults.old ≤ faults.new }
    ensures missed_stay { missed.old ≤ missed.new }
{
    match answer {
        Ok(file) => Ok(file),
        Err(error) => {
            if error.kind() == ErrorKind::NotFound {
                *missed = missed.saturating_add(1);
                Err(OpenError::Missing)
            } else {
                *faults = faults.saturating_add(1);
                Err(OpenError::Failed)
            }
        }
    }
}

// One more fault.
fn counted(faults: &mut u64) -> Fault
    ensures next { faults.new ≡ next_count faults.old }
    ensures stays { faults.old ≤ faults.new }
{
    *faults = faults.saturating_add(1);
    Fault
}

// What a read answers where the system answered this, with the count of faults.
fn read(answer: io::Result<usize>, faults: &mut u64) -> Result<usize, Fault>
    ensures given { IfOk answer (λ n. result ≡ Ok n) }
    ensures refused { OnErr answer (IsErr result) }
    ensures faults { faults.new ≡ faults_after result faults.old }
    ensures faults_stay { faults.old ≤ faults.new }
{
    match answer {
        Ok(n) => Ok(n),
        Err(_) => Err(counted(faults)),
    }
}

// What the write of a piece that isn't empty answers where the system answered this, with the count of faults. That no
// byte was taken counts as one.
fn written(answer: io::Result<usize>, faults: &mut u64) -> Result<usize, Fault>
    ensures given { IfOk answer (λ n. result ≡ Ok n) }
    ensures refused { OnErr answer (IsErr result) }
    ensures faults { faults.new ≡ faults_after_write result faults.old }
    ensures faults_stay { faults.old ≤ faults.new }
{
    let Ok(n) = answer else {
        return Err(counted(faults));
    };
    if n == 0 {
        *faults = faults.saturating_add(1);
    }
    Ok(n)
}

// Writes the piece to the stream. An empty one doesn't reach it.
fn write_to<P: Print>(stream: &P, piece: &[u8], faults: &mut u64) -> Result<usize, Fault>
    ensures bound { IfOk result (λ n. n ≤ length piece.now) }
    ensures empty { length piece.now ≡ 0 → (result ≡ Ok 0) × (faults.new ≡ faults.old) }
    ensures faults { 0 < length piece.now → faults.new ≡ faults_after_write result faults.old }
    ensures faults_stay { faults.old ≤ faults.new }
{
    if piece.is_empty() {
        return Ok(0);
    }
    written(stream.write_some(piece), faults)
}

/// The files of the system, read one at a time. A name is a path, taken from where the program runs.
#[derive(Drop)]
pub struct DiskShelf<'a, R: Files> {
    files: &'a R,
    open: Option<R::File>,
    faults: u64,
    missed: u64,
}

impl<'a, R: Files> DiskShelf<'a, R> {
    /// The files of this runtime, of which none is open yet.
    pub fn new(files: &'a R) -> DiskShelf<'a, R>
        ensures faults { ⟦<DiskShelf<'a, R> as Shelf>⟧.faults result ≡ 0 }
        ensures missed { ⟦<DiskShelf<'a, R> as Shelf>⟧.missed result ≡ 0 }
    {
        DiskShelf {
            files,
            open: None,
            faults: 0,
            missed: 0,
        }
    }
}

impl<R: Files> Shelf for DiskShelf<'_, R> {
    ghost told = { λ _. None };

    ghost faults = { λ s. s.faults };

    ghost missed = { λ s. s.missed };

    ghost closed_is_empty = { λ _. tt };

    /// A name that the system doesn't know is missing. Whatever else it refuses is a fault: a name that is too long, no
    /// permission, too many open files.
    fn open(&mut self, name: &str) -> Result<(), OpenError> {
        self.open = None;
        let answer = fs::open(self.files, name);
        self.open = Some(opened(answer, &mut self.faults, &mut self.missed)?);
        Ok(())
    }

    fn read(&mut self, into: &mut [u8]) -> Result<usize, Fault> {
        let Some(file) = &mut self.open else {
            return Ok(0);
        };
        read(file.read(into), &mut self.faults)
    }
}

/// Standard output or standard error. Each write is one call of the system, with nothing held back, so what was written
/// is also flushed.
#[derive(Drop)]
pub struct StdSink<P: Print + Drop> {
    stream: P,
    faults: u64,
}

impl StdSink<Stdout> {
    /// Standard output.
    pub fn output(rt: &HostRuntime) -> StdSink<Stdout>
        ensures { ⟦<StdSink<Stdout> as Sink>⟧.faults result ≡ 0 }
    {
        StdSink {
            stream: rt.stdout(),
            faults: 0,
        }
    }
}

impl StdSink<Stderr> {
    /// Standard error.
    pub fn error(rt: &HostRuntime) -> StdSink<Stderr>
        ensures { ⟦<StdSink<Stderr> as Sink>⟧.faults result ≡ 0 }
    {
        StdSink {
            stream: rt.stderr(),
            faults: 0,
        }
    }
}

impl<P: Print + Drop> Sink for StdSink<P> {
    ghost written = { λ _. None };

    ghost faults = { λ s. s.faults };

    fn write(&mut self, piece: &[u8]) -> Result<usize, Fault> {
        write_to(&self.stream, piece, &mut self.faults)
    }
}
