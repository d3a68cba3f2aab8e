//! A shelf in memory, which fails where it is told to.
ghost use Rattle.std.specs.Prelude.{◌≡◌, ◌≤◌, ◌<◌, ◌+◌, ◌^◌, ◌↔◌, ℕ, [], length, take, OnOk, OnErr, IfOk, IfSome, IfNone, IsErr, IsErrOf, IsTrue, Some, None, min};
ghost use Rattle.am_base.specs.Counts.{Rose, next_count};
ghost use Rattle.am_base.specs.Shelves.{Opens, Closes, IsAbsent, Takes, IsAtEnd, file_named};
ghost use Rattle.am_base.specs.InMemory.{as_files, file_at, rest_at, shelf_told, shelf_faults, shelf_missed, opens_asked, reads_asked, failing_opens, failing_reads, FailsAlike, closed_rest};
ghost use Rattle.am_base.specs.Failing.{is_bad, faults_after, faults_after_open, missed_after_open};
ghost use Rattle.am_base.specs.declared.shelf.OpenError.TheVariants.{Missing, Failed};

use crate::failing::is_listed;
use crate::shelf::{Fault, OpenError, Shelf};

/// The open file of a [`MemShelf`]: which one of its files it is, and how many of its bytes were read.
#[derive(Clone, Copy, Debug, PartialEq, Eq)]
struct Place {
    file: usize,
    at: usize,
}

/// Files in memory, which it tells. The opens and reads of given numbers fail.
#[derive(Drop)]
pub struct MemShelf {
    files: Vec<(String, Vec<u8>)>,
    bad_opens: Vec<u64>,
    bad_reads: Vec<u64>,
    opens: u64,
    reads: u64,
    open: Option<Place>,
    faults: u64,
    missed: u64,
}

impl MemShelf {
    /// A shelf of these files, of which none is open. Of two files of one name the first is found. The opens and the
    /// reads of these numbers, each counted from 1, fail.
    pub fn new(files: Vec<(String, Vec<u8>)>, bad_opens: Vec<u64>, bad_reads: Vec<u64>) -> MemShelf
        ensures told { shelf_told result
            ≡ record { files = as_files files.items; open_name = None; rest = [] } }
        ensures faults { shelf_faults result ≡ 0 }
        ensures missed { shelf_missed result ≡ 0 }
        ensures opens { opens_asked result ≡ 0 }
        ensures reads { reads_asked result ≡ 0 }
        ensures bad_opens { failing_opens result ≡ bad_opens.items }
        ensures bad_reads { failing_reads result ≡ bad_reads.items }
    {
        MemShelf {
            files,
            bad_opens,
            bad_reads,
            opens: 0,
            reads: 0,
            open: None,
            faults: 0,
            missed: 0,
        }
    }
}

impl Shelf for MemShelf {
    ghost told = { λ s. Some (shelf_told s) };

    ghost faults = { shelf_faults };

    ghost missed = { shelf_missed };

    ghost closed_is_empty = { λ s h. closed_rest (as_files s.files.items) s.open h };

    fn open(&mut self, name: &str) -> Result<(), OpenError>
        ensures opened { OnOk result
            (Opens (Some (shelf_told self.old)) (Some (shelf_told self.new)) name.now) }
        ensures closed { OnErr result
            (Closes (Some (shelf_told self.old)) (Some (shelf_told self.new))) }
        ensures missing { IsErrOf result Missing →
            (Rose (shelf_missed self.old) (shelf_missed self.new))
            × IsAbsent (Some (shelf_told self.old)) name.now }
        ensures failed { IsErrOf result Failed →
            Rose (shelf_faults self.old) (shelf_faults self.new) }
        ensures faults_stay { shelf_faults self.old ≤ shelf_faults self.new }
        ensures missed_stay { shelf_missed self.old ≤ shelf_missed self.new }

        // The opens of the given numbers fail and no others, and the counts rise with the answers alone.
        ensures counted { opens_asked self.new ≡ next_count (opens_asked self.old) }
        ensures bad { IsErrOf result Failed ↔
            IsTrue (is_bad (failing_opens self.old) (next_count (opens_asked self.old))) }
        ensures faults_exact { shelf_faults self.new
            ≡ faults_after_open result (shelf_faults self.old) }
        ensures missed_exact { shelf_missed self.new
            ≡ missed_after_open result (shelf_missed self.old) }
        ensures reads { reads_asked self.new ≡ reads_asked self.old }
        ensures alike { FailsAlike self.old self.new }
    {
        self.open = None;
        self.opens = self.opens.saturating_add(1);
        if is_listed(&self.bad_opens, self.opens) {
            self.faults = self.faults.saturating_add(1);
            return Err(OpenError::Failed);
        }
        match place_of(&self.files, name) {
            Some(file) => {
                self.open = Some(Place { file, at: 0 });
                Ok(())
            }
            None => {
                self.missed = self.missed.saturating_add(1);
                Err(OpenError::Missing)
            }
        }
    }

    fn read(&mut self, into: &mut [u8]) -> Result<usize, Fault>
        requires { 0 < length into.old }
        ensures bound { IfOk result (λ n. n ≤ length into.new) }
        ensures taken { IfOk result (λ n.
            Takes (Some (shelf_told self.old)) (Some (shelf_told self.new)) (take n into.new)) }
        ensures end { IfOk result (λ n. n ≡ 0 → IsAtEnd (Some (shelf_told self.old))) }
        ensures unchanged { OnErr result (Some (shelf_told self.new) ≡ Some (shelf_told self.old)) }
        ensures failed { OnErr result (Rose (shelf_faults self.old) (shelf_faults self.new)) }
        ensures faults_stay { shelf_faults self.old ≤ shelf_faults self.new }
        ensures missed_stay { shelf_missed self.old ≤ shelf_missed self.new }

        // The reads of the given numbers fail and no others; each other read gives as much as there is and fits.
        ensures counted { reads_asked self.new ≡ next_count (reads_asked self.old) }
        ensures bad { IsErr result ↔
            IsTrue (is_bad (failing_reads self.old) (next_count (reads_asked self.old))) }
        ensures most { IfOk result (λ n.
            n ≡ min (length (shelf_told self.old).rest) (length into.old)) }
        ensures faults_exact { shelf_faults self.new ≡ faults_after result (shelf_faults self.old) }
        ensures missed_exact { shelf_missed self.new ≡ shelf_missed self.old }
        ensures opens { opens_asked self.new ≡ opens_asked self.old }
        ensures alike { FailsAlike self.old self.new }
    {
        self.reads = self.reads.saturating_add(1);
        if is_listed(&self.bad_reads, self.reads) {
            self.faults = self.faults.saturating_add(1);
            return Err(Fault);
        }
        let Some(place) = self.open else {
            return Ok(0);
        };
        let n = copy_front(rest_of(&self.files, place), into);
        self.open = Some(Place {
            file: place.file,
            at: place.at + n,
        });
        Ok(n)
    }
}

// The place of the first file of this name.
fn place_of(files: &[(String, Vec<u8>)], name: &str) -> Option<usize>
    ensures found { IfSome result (λ i. ((file_at (as_files files.now) i).0 ≡ name.now)
        × (file_named (as_files files.now) name.now ≡ Some (file_at (as_files files.now) i).1)) }
    ensures absent { IfNone result (file_named (as_files files.now) name.now ≡ None) }
{
    for (i, file) in files.iter().enumerate() {
        if file.0.as_str() == name {
            return Some(i);
        }
    }
    None
}

// What is left of the open file.
fn rest_of(files: &[(String, Vec<u8>)], place: Place) -> &[u8]
    ensures rest { result.now ≡ rest_at (as_files files.now) (Some place) }
    ensures fits { place.at + length result.now < 2 ^ 64 }
{
    let Some(file) = files.get(place.file) else {
        return &[];
    };
    match file.1.get(place.at..) {
        Some(rest) => rest,
        None => &[],
    }
}

// Copies bytes to the front of `into`, as many as there are and fit, and answers how many.
fn copy_front(from: &[u8], into: &mut [u8]) -> usize
    ensures most { result ≡ min (length from.now) (length into.old) }
    ensures copied { take result into.new ≡ take result from.now }
{
    let n = from.len().min(into.len());
    into[..n].copy_from_slice(&from[..n]);
    n
}
