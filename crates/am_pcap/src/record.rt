ghost use Rattle.std.specs.Prelude.{◌≡◌};
ghost use Rattle.am_pcap.specs.Packets.{reading_of};
ghost use Rattle.am_pcap.specs.CaptureFiles.{is_whole};

/// How the numbers of a capture are written.
#[derive(Clone, Copy, Debug, PartialEq, Eq)]
pub struct Form {
    /// Whether the highest byte of a number stands first, else the lowest does.
    pub big: bool,
    /// Whether the fraction of a second is in nanoseconds, else it is in microseconds.
    pub nano: bool,
}

/// A record of a capture: a packet that was captured, whole or its first bytes alone.
#[derive(Clone, Copy, Debug)]
pub struct Record<'a> {
    /// The record's place in its capture, from 1.
    pub number: u64,
    /// When the packet was seen: whole seconds from the capture's epoch.
    pub seconds: u32,
    /// The rest of that time, in the unit that the capture's form says; any number is allowed.
    pub fraction: u32,
    /// How many bytes the packet had on the wire.
    pub original: u32,
    /// The bytes that were captured, from the packet's first, as they stand in the file.
    pub bytes: &'a [u8],
}

impl Record<'_> {
    ghost use Rattle.am_pcap.specs.Shown.{packet_shown};

    /// When the packet was seen, in nanoseconds from the capture's epoch. A fraction of a second or
    /// more is added as it stands.
    pub fn reading(&self, form: Form) -> u64
        ensures { result ≡ reading_of form.nano (packet_shown self.now) }
    {
        let unit = if form.nano { 1 } else { 1000 };
        u64::from(self.seconds) * 1_000_000_000 + u64::from(self.fraction) * unit
    }

    /// Whether all bytes of the packet were captured.
    pub fn whole(&self) -> bool
        ensures { result ≡ is_whole (packet_shown self.now) }
    {
        self.original as usize <= self.bytes.len()
    }
}
