//! The command `show`: what each record of a capture says, a line a record.
ghost use Rattle.std.specs.Prelude.{◌≡◌, ◌+◌, ◌≤◌, ◌++◌, ◌∷◌, ⊤, List, [], length, map, string_bytes, OnOk, OnErr, IfSome, IfNone, flat_map, codes, decimal};
ghost use Rattle.am_opts.specs.Marking.{bit};
ghost use Rattle.am_ip6.specs.Chains.{Lent, HasHeaders};
ghost use Rattle.am_ip6.specs.Shown.{ending_shown};
ghost use Rattle.am_ip6.specs.Seen.{seen_shown};
ghost use Rattle.am_pcap.specs.Shown.{packet_shown};
ghost use Rattle.am_chain.specs.Chains.{inputs, output, Performs};
ghost use Rattle.am_run.specs.Lines.{IsLine, record_text, header_text, ending_text, seen_text};
ghost use Rattle.am_chain.specs.Printing.{Grows};
ghost use Rattle.am_run.specs.Showing.{AddsPacket, mark_text, brief_text};
ghost use Rattle.am_run.specs.commands.Show.{Show, SaysShowWords, record_lines, show_chain};
ghost use Rattle.am_chain.specs.Shown.{answer_of};
ghost use Rattle.am_run.specs.Asked.{show_shown};

use am_base::{Shelf, Sink};
use am_chain::answer::{Stop, Unprinted};
use am_chain::printing::{Printing, print_capture};
use am_domain::is_file_name;
use am_ip6::{Brief, Ending, Found, Place, Walk, find_mark, walk_ending};
use am_opts::Mark;
use am_pcap::{Form, Frame, Head, Record, packet_of};
use am_tail::{MAX_TAIL, Tail};
use std::alloc::{AllocError, Global};

/// What `show` is asked.
#[derive(Clone, Copy)]
pub struct ShowWords<'a> {
    /// The name of the capture.
    pub file: &'a str,
}

/// FILE.
pub fn words_of(words: &[String]) -> Option<ShowWords<'_>>
    ensures only { IfSome result
        (λ w. SaysShowWords (map string_bytes words.now) (show_shown w)) }
    ensures none { IfNone result ((s : Show) → SaysShowWords (map string_bytes words.now) s
        → ⊥) }
{
    match words {
        [file] => file_word(file.as_str()),
        _ => None,
    }
}

// The same, of one word.
fn file_word(file: &str) -> Option<ShowWords<'_>>
    ensures only { IfSome result (λ w. SaysShowWords (file.now ∷ []) (show_shown w)) }
    ensures none { IfNone result ((s : Show) → SaysShowWords (file.now ∷ []) s → ⊥) }
{
    if !is_file_name(file) {
        return None;
    }
    Some(ShowWords { file })
}

/// The line of each record.
struct RecordLines;

impl Printing for RecordLines {
    type State = Vec<u8>;

    ghost stream = { λ p. record_lines };

    ghost knows = { λ p line h ps. ⊤ };

    fn begin(
        &self,
        alloc: Global,
        _head: &Head,
        _held: &mut Vec<u8>,
    ) -> Result<Vec<u8>, AllocError> {
        Ok(Vec::new(alloc))
    }

    fn take(
        &self,
        line: &mut Vec<u8>,
        head: &Head,
        packet: &Record<'_>,
        held: &mut Vec<u8>,
    ) -> Result<(), Unprinted> {
        match show_line(held, packet, head, line) {
            Ok(()) => Ok(()),
            Err(_) => Err(Unprinted::NoMemory),
        }
    }

    fn finish(
        &self,
        _line: &mut Vec<u8>,
        _head: &Head,
        _held: &mut Vec<u8>,
    ) -> Result<(), AllocError> {
        Ok(())
    }
}

/// Prints the line of each record of the capture.
pub fn show<S: Shelf, O: Sink>(
    alloc: Global,
    words: &ShowWords<'_>,
    shelf: &mut S,
    out: &mut O,
) -> Result<(), Stop>
    ensures { Performs (inputs (S.told shelf.old) (S.faults shelf.old) (S.missed shelf.old))
        (inputs (S.told shelf.new) (S.faults shelf.new) (S.missed shelf.new))
        (output (O.written out.old) (O.faults out.old))
        (output (O.written out.new) (O.faults out.new))
        (show_chain (show_shown words.now)) (answer_of result) }
{
    print_capture(alloc, &RecordLines, words.file, shelf, out)
}

// Adds the line of a record, or nothing where memory runs out. A line that takes a walk is made in the other text first.
fn show_line(
    held: &mut Vec<u8>,
    packet: &Record<'_>,
    head: &Head,
    line: &mut Vec<u8>,
) -> Result<(), AllocError>
    ensures added { OnOk result (Grows held.old.items held.new.items (λ line.
        IsLine head.now packet.now.number (packet_shown packet.now) line)) }
    ensures kept { OnErr result (held.new.items ≡ held.old.items) }
{
    let whole = packet.whole();
    match packet_of(head.link, packet.bytes, whole) {
        Frame::Ip6 { at } => {
            push_packet(held, packet, head.form, &packet.bytes[at..], whole, line)
        }
        Frame::Other => push_word(held, packet, head.form, b"other"),
        Frame::Cut => push_word(held, packet, head.form, b"cut"),
    }
}

// Adds the line of a record that holds no IPv6 packet, or nothing.
fn push_word(
    held: &mut Vec<u8>,
    packet: &Record<'_>,
    form: Form,
    word: &[u8],
) -> Result<(), AllocError>
    requires { length word.now ≤ 5 }
    ensures added { OnOk result (held.new.items ≡ held.old.items
        ++ (record_text form.nano packet.now.number (packet_shown packet.now)
        ++ word.now ++ codes "\n")) }
    ensures kept { OnErr result (held.new.items ≡ held.old.items) }
{
    let mut tail = Tail::new();
    tail.put(b'\n');
    tail.put_all(word);
    put_record(&mut tail, packet, form);
    held.extend_from_slice(tail.text())
}

// Adds the line of a record that holds this packet, or nothing.
fn push_packet(
    held: &mut Vec<u8>,
    packet: &Record<'_>,
    form: Form,
    bytes: &[u8],
    whole: bool,
    line: &mut Vec<u8>,
) -> Result<(), AllocError>
    ensures added { OnOk result (AddsPacket
        (record_text form.nano packet.now.number (packet_shown packet.now))
        bytes.now whole held.old.items held.new.items) }
    ensures kept { OnErr result (held.new.items ≡ held.old.items) }
{
    match Brief::read(bytes) {
        Some(brief) => push_brief(held, packet, form, brief),
        None => push_walked(held, packet, form, bytes, whole, line),
    }
}

// Adds the line of a record that holds a packet of few headers, or nothing.
fn push_brief(
    held: &mut Vec<u8>,
    packet: &Record<'_>,
    form: Form,
    brief: Brief,
) -> Result<(), AllocError>
    ensures added { OnOk result (held.new.items ≡ held.old.items
        ++ (record_text form.nano packet.now.number (packet_shown packet.now)
        ++ brief_text brief.mark brief.next ++ codes "\n")) }
    ensures kept { OnErr result (held.new.items ≡ held.old.items) }
{
    let mut tail = Tail::new();
    tail.put(b'\n');
    put_brief(&mut tail, brief);
    put_record(&mut tail, packet, form);
    held.extend_from_slice(tail.text())
}

// Adds the line of a record that holds a packet of any headers, or nothing. It is made in the other text first.
#[inline(never)]
fn push_walked(
    held: &mut Vec<u8>,
    packet: &Record<'_>,
    form: Form,
    bytes: &[u8],
    whole: bool,
    line: &mut Vec<u8>,
) -> Result<(), AllocError>
    ensures added { OnOk result (AddsPacket
        (record_text form.nano packet.now.number (packet_shown packet.now))
        bytes.now whole held.old.items held.new.items) }
    ensures kept { OnErr result (held.new.items ≡ held.old.items) }
{
    line.clear();
    push_walk(line, packet, form, bytes, whole)?;
    held.extend_from_slice(line.as_slice())?;
    Ok(())
}

// Adds the line of a record that holds a packet of any headers, by the walk of its chain.
fn push_walk(
    line: &mut Vec<u8>,
    packet: &Record<'_>,
    form: Form,
    bytes: &[u8],
    whole: bool,
) -> Result<(), AllocError>
    ensures { OnOk result (AddsPacket
        (record_text form.nano packet.now.number (packet_shown packet.now))
        bytes.now whole line.old.items line.new.items) }
{
    push_start(line, packet, form)?;
    push_headers(line, bytes, whole)?;
    let hop = find_mark(bytes, whole, Place::HopByHop);
    let destination = find_mark(bytes, whole, Place::Destination);
    push_end(line, walk_ending(bytes, whole), &hop, &destination)
}

// Adds what stands before a packet's chain.
fn push_start(line: &mut Vec<u8>, packet: &Record<'_>, form: Form) -> Result<(), AllocError>
    ensures { OnOk result (line.new.items ≡ line.old.items
        ++ (record_text form.nano packet.now.number (packet_shown packet.now) ++ codes "ip6 ")) }
{
    let mut tail = Tail::new();
    tail.put_all(b"ip6 ");
    put_record(&mut tail, packet, form);
    line.extend_from_slice(tail.text())
}

// Adds the headers of a packet's chain.
fn push_headers(line: &mut Vec<u8>, packet: &[u8], whole: bool) -> Result<(), AllocError>
    ensures { OnOk result ((hs : List Lent) × HasHeaders packet.now hs ×
        (line.new.items ≡ line.old.items ++ flat_map header_text hs)) }
{
    for header in Walk::over(packet, whole) {
        push_header(line, header.kind, header.bytes.len())?;
    }
    Ok(())
}

// Adds one header, and the comma behind it.
fn push_header(line: &mut Vec<u8>, kind: u8, length: usize) -> Result<(), AllocError>
    ensures { OnOk result (line.new.items
        ≡ line.old.items ++ (decimal kind ++ codes ":" ++ decimal length ++ codes ",")) }
{
    let mut tail = Tail::new();
    tail.put(b',');
    tail.put_number(length as u64);
    tail.put(b':');
    tail.put_number(u64::from(kind));
    line.extend_from_slice(tail.text())
}

// Adds how a chain ends, what is found of a mark in each kind of header, and the line's end.
fn push_end(
    line: &mut Vec<u8>,
    ending: Ending,
    hop: &Found,
    destination: &Found,
) -> Result<(), AllocError>
    ensures { OnOk result (line.new.items ≡ line.old.items
        ++ (ending_text (ending_shown ending) ++ codes " " ++ seen_text (seen_shown hop.now)
        ++ codes " " ++ seen_text (seen_shown destination.now) ++ codes "\n")) }
{
    let mut tail = Tail::new();
    tail.put(b'\n');
    put_found(&mut tail, destination);
    tail.put(b' ');
    put_found(&mut tail, hop);
    tail.put(b' ');
    put_ending(&mut tail, ending);
    line.extend_from_slice(tail.text())
}

// Puts what stands first: the record's number, its reading, how many bytes were captured and how many the packet had.
fn put_record(tail: &mut Tail, packet: &Record<'_>, form: Form)
    requires { length tail.old + 84 ≤ MAX_TAIL }
    ensures { tail.new ≡ record_text form.nano packet.now.number (packet_shown packet.now)
        ++ tail.old }
{
    tail.put(b' ');
    tail.put_number(u64::from(packet.original));
    tail.put(b' ');
    tail.put_number(packet.bytes.len() as u64);
    tail.put(b' ');
    tail.put_number(packet.reading(form));
    tail.put(b' ');
    tail.put_number(packet.number);
}

// Puts a packet of few headers.
fn put_brief(tail: &mut Tail, brief: Brief)
    requires { length tail.old + 60 ≤ MAX_TAIL }
    ensures text { tail.new ≡ brief_text brief.mark brief.next ++ tail.old }
    ensures room { length tail.new ≤ length tail.old + 60 }
{
    match brief.mark {
        Some(mark) => {
            tail.put_all(b" -");
            put_mark(tail, &mark);
            tail.put(b' ');
            tail.put_number(u64::from(brief.next));
            tail.put_all(b"ip6 0:8,=");
        }
        None => {
            tail.put_all(b" - -");
            tail.put_number(u64::from(brief.next));
            tail.put_all(b"ip6 =");
        }
    }
}

// Puts how a chain ends.
fn put_ending(tail: &mut Tail, ending: Ending)
    requires { length tail.old + 24 ≤ MAX_TAIL }
    ensures text { tail.new ≡ ending_text (ending_shown ending) ++ tail.old }
    ensures room { length tail.new ≤ length tail.old + 24 }
{
    match ending {
        Ending::End { next, .. } => {
            tail.put_number(u64::from(next));
            tail.put(b'=');
        }
        Ending::Cut => tail.put_all(b"cut"),
        Ending::Malformed { place } => {
            tail.put_number(place as u64);
            tail.put_all(b"bad@");
        }
    }
}

// Puts what is found of a mark.
fn put_found(tail: &mut Tail, found: &Found)
    requires { length tail.old + 24 ≤ MAX_TAIL }
    ensures text { tail.new ≡ seen_text (seen_shown found.now) ++ tail.old }
    ensures room { length tail.new ≤ length tail.old + 24 }
{
    match found {
        Found::Marked { mark, .. } => put_mark(tail, mark),
        Found::Unmarked => tail.put(b'-'),
        Found::Cut => tail.put_all(b"cut"),
    }
}

// Puts a mark: the flow, the loss bit and the delay bit.
fn put_mark(tail: &mut Tail, mark: &Mark)
    requires { length tail.old + 24 ≤ MAX_TAIL }
    ensures text { tail.new ≡ mark_text mark.now ++ tail.old }
    ensures room { length tail.new ≤ length tail.old + 24 }
{
    tail.put(digit_of(mark.delay()));
    tail.put(b'/');
    tail.put(digit_of(mark.loss()));
    tail.put(b'/');
    tail.put_number(u64::from(mark.flow()));
}

// The digit of a bit.
fn digit_of(set: bool) -> u8
    ensures { decimal (bit set) ≡ result ∷ [] }
{
    if set { b'1' } else { b'0' }
}
