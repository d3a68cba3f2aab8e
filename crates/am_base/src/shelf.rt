//! A shelf: files by name, of which one at a time is open and read from its first byte to its end.
ghost use Rattle.std.specs.Prelude.{◌≡◌, ◌≤◌, ◌<◌, ℕ, List, Option, length, take, OnOk, OnErr, IfOk, IsErrOf};
ghost use Rattle.am_base.specs.Counts.{Rose};
ghost use Rattle.am_base.specs.Shelves.{Told, ClosedIsEmpty, Opens, Closes, IsAbsent, Takes, IsAtEnd};
ghost use Rattle.am_base.specs.declared.shelf.OpenError.TheVariants.{Missing, Failed};

/// Why a file could not be opened.
#[derive(Clone, Copy, Debug, PartialEq, Eq)]
pub enum OpenError {
    /// No file has this name.
    Missing,
    /// The shelf failed: the system refused, whatever else the cause.
    Failed,
}

/// A read or a write failed: the system refused it.
#[derive(Clone, Copy, Debug, PartialEq, Eq)]
pub struct Fault;

/// Files by name. At most one is open, and is read in order.
pub trait Shelf {
    /// The files, the open one's name and what is left of it; nothing where the shelf doesn't tell.
    ghost told: { Self → Option Told };

    /// How often an open or a read failed.
    ghost faults: { Self → ℕ };

    /// How often a name was not there.
    ghost missed: { Self → ℕ };

    /// Closes the file that was open, and opens the named one at its first byte. After a refusal no file is open.
    ///
    /// `Missing`: no file has this name. `Failed`: the shelf failed.
    fn open(&mut self, name: &str) -> Result<(), OpenError>
        ensures opened { OnOk result (Opens (told self.old) (told self.new) name.now) }
        ensures closed { OnErr result (Closes (told self.old) (told self.new)) }
        ensures missing { IsErrOf result Missing → (Rose (missed self.old) (missed self.new))
            × IsAbsent (told self.old) name.now }
        ensures failed { IsErrOf result Failed → Rose (faults self.old) (faults self.new) }
        ensures faults_stay { faults self.old ≤ faults self.new }
        ensures missed_stay { missed self.old ≤ missed self.new };

    /// Reads the next bytes of the open file to the front of `into`, and answers how many: none exactly at its end, and
    /// where no file is open.
    ///
    /// `Fault`: the shelf failed, and nothing was read.
    fn read(&mut self, into: &mut [u8]) -> Result<usize, Fault>
        requires { 0 < length into.old }
        ensures bound { IfOk result (λ n. n ≤ length into.new) }
        ensures taken { IfOk result
            (λ n. Takes (told self.old) (told self.new) (take n into.new)) }
        ensures end { IfOk result (λ n. n ≡ 0 → IsAtEnd (told self.old)) }
        ensures unchanged { OnErr result (told self.new ≡ told self.old) }
        ensures failed { OnErr result (Rose (faults self.old) (faults self.new)) }
        ensures faults_stay { faults self.old ≤ faults self.new }
        ensures missed_stay { missed self.old ≤ missed self.new };

    /// With no file open nothing is left to read.
    ghost closed_is_empty: { (s : Self) → ClosedIsEmpty (told s) };
}
