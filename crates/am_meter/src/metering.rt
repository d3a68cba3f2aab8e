//! The cells of a node over the file of its capture.
ghost use Rattle.std.specs.Prelude.{◌≡◌, ◌+◌, ◌<◌, ◌≤◌, ◌^◌, false, [], Some, length, IfOk, IfErr, IsErrOf, OnErr};
ghost use Rattle.std.specs.Bool.{OnFalse};
ghost use Rattle.am_base.specs.Counts.{Rose};
ghost use Rattle.am_base.specs.Shelves.{IsAtEnd};
ghost use Rattle.am_base.specs.Files.{KeepsFiles};
ghost use Rattle.am_pcap.specs.declared.capture.FileError.TheVariants as file;
ghost use Rattle.am_meter.specs.declared.stream.MeterError.TheVariants.{File};
ghost use Rattle.am_pcap.specs.Answers.{StopsReading};
ghost use Rattle.am_meter.specs.Batches.{bytes_in};
ghost use Rattle.am_meter.specs.Filling.{LoadsSo, FillsSo, FillsUntil};
ghost use Rattle.am_meter.specs.MeteredFiles.{AreCellsOf, WhyNoCells};
ghost use Rattle.am_meter.specs.Metering.{HasDomainShape};

use crate::batch::Batch;
use crate::counting::{count_batch, no_cells};
use crate::gate::Gate;
use crate::stream::MeterError;
use am_base::Shelf;
use am_cells::Cells;
use am_domain::Domain;
use am_pcap::{Capture, FileError, Head};
use std::alloc::Global;

// A batch of so many bytes or records is counted before more is read: it is still in the processor's cache then.
const ENOUGH_BYTES: usize = 262_144;

const ENOUGH_RECORDS: usize = 8_192;

/// The cells of a node of a domain over the marked records of its capture: for each flow and each reported block how
/// many there are, and the sums of their offsets (RFC 9341, sections 3.1 and 3.2). The gate changes nothing of them.
///
/// `File`: as `Capture::open` and `Capture::next` say, or `Memory`, where there is not enough. `HeadersCut`: nobody
/// knows whether the record of this number is marked; it is the first such record, and no earlier record is refused.
pub fn meter_file<S: Shelf, G: Gate>(
    alloc: Global,
    domain: &Domain,
    node: u32,
    shelf: &mut S,
    _gate: &G,
) -> Result<Cells, MeterError>
    requires { node < length domain.now.nodes }
    ensures metered { IfOk result
        (λ cells. AreCellsOf domain.now node (S.told shelf.old) cells) }
    ensures table { IfOk result (λ cells. HasDomainShape domain.now cells) }
    ensures at_end { IfOk result (λ _. IsAtEnd (S.told shelf.new)) }
    ensures refused { IfErr result (λ e. WhyNoCells domain.now node (S.told shelf.old) e) }
    ensures missing { IsErrOf result (File file.Missing) →
        Rose (S.missed shelf.old) (S.missed shelf.new) }
    ensures read_fault { IsErrOf result (File file.ReadFault) →
        Rose (S.faults shelf.old) (S.faults shelf.new) }
    ensures files { KeepsFiles (S.told shelf.old) (S.told shelf.new) }
    ensures faults_stay { S.faults shelf.old ≤ S.faults shelf.new }
    ensures missed_stay { S.missed shelf.old ≤ S.missed shelf.new }
{
    let at = &domain.nodes()[node as usize];
    let mut capture = match Capture::open(alloc, shelf, at.capture()) {
        Ok(capture) => capture,
        Err(error) => return Err(MeterError::File(error)),
    };
    let Ok(mut batch) = Batch::new(alloc) else {
        return Err(MeterError::File(FileError::Memory));
    };
    let Ok(mut cells) = no_cells(alloc, domain) else {
        return Err(MeterError::File(FileError::Memory));
    };
    'batches: loop {
        let filled = fill(&mut capture, &mut batch, shelf);
        if let Err(number) = count_batch(domain, node, &batch, &mut cells) {
            return Err(MeterError::HeadersCut { number });
        }
        match filled {
            Ok(true) => batch.clear(),
            Ok(false) => return Ok(cells),
            Err(error) => return Err(MeterError::File(error)),
        }
    }
}

// Fills a batch that is empty with the next records of a capture. True: there may be more; false: these are the last.
fn fill<S: Shelf>(
    capture: &mut Capture,
    batch: &mut Batch,
    shelf: &mut S,
) -> Result<bool, FileError>
    requires goes_on { capture.old.over ≡ false }
    requires few { capture.old.decoded.summary.count ≤ 2 ^ 36 }
    requires empty { batch.old ≡ [] }
    ensures fills { IfOk result (λ more.
        FillsSo capture.old capture.new (S.told shelf.old) (S.told shelf.new) batch.new more) }
    ensures stopped { IfErr result (λ e.
        FillsUntil capture.old (S.told shelf.old) (S.told shelf.new) batch.new e) }
    ensures read_fault { IsErrOf result file.ReadFault →
        Rose (S.faults shelf.old) (S.faults shelf.new) }
    ensures faults_stay { S.faults shelf.old ≤ S.faults shelf.new }
    ensures missed_stay { S.missed shelf.old ≤ S.missed shelf.new }
{
    let head = capture.head();
    'records: loop {
        match load(capture, &head, batch, shelf) {
            Ok(true) => {}
            Ok(false) => return Ok(false),
            Err(error) => return Err(error),
        }
        if is_enough(batch) {
            return Ok(true);
        }
    }
}

// Whether a batch is to be counted before more is read.
fn is_enough(batch: &Batch) -> bool
    ensures { OnFalse result ((length batch.now < ENOUGH_RECORDS)
        × (bytes_in batch.now < ENOUGH_BYTES)) }
{
    batch.len() >= ENOUGH_RECORDS || batch.size() >= ENOUGH_BYTES
}

// Puts the next record of a capture into a batch. False: there is none.
fn load<S: Shelf>(
    capture: &mut Capture,
    head: &Head,
    batch: &mut Batch,
    shelf: &mut S,
) -> Result<bool, FileError>
    requires goes_on { capture.old.over ≡ false }
    requires head { capture.old.decoded.summary.head ≡ Some head.now }
    requires few { length batch.old < ENOUGH_RECORDS }
    requires short { bytes_in batch.old < ENOUGH_BYTES }
    ensures loads { IfOk result (λ more. LoadsSo capture.old capture.new
        (S.told shelf.old) (S.told shelf.new) batch.old batch.new more) }
    ensures stopped { IfErr result (λ e.
        StopsReading capture.old (S.told shelf.old) (S.told shelf.new) e) }
    ensures batch { OnErr result (batch.new ≡ batch.old) }
    ensures read_fault { IsErrOf result file.ReadFault →
        Rose (S.faults shelf.old) (S.faults shelf.new) }
    ensures faults_stay { S.faults shelf.old ≤ S.faults shelf.new }
    ensures missed_stay { S.missed shelf.old ≤ S.missed shelf.new }
{
    match capture.next(shelf) {
        Ok(Some(record)) => {
            // There is room: no record of a capture has more than 262,144 bytes.
            batch.push(
                head.link,
                record.number,
                record.reading(head.form),
                record.whole(),
                record.bytes,
            );
            Ok(true)
        }
        Ok(None) => Ok(false),
        Err(error) => Err(error),
    }
}
