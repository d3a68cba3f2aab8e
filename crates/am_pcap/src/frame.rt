//! Where the IPv6 packet begins in the bytes of a record.
ghost use Rattle.std.specs.Prelude.{◌≡◌, ◌+◌, ◌≤◌, ◌↔◌, ◌^◌, ◌<◌, length, IsTrue};
ghost use Rattle.am_pcap.specs.Frames as frames;
ghost use Rattle.am_pcap.specs.declared.frame.Frame.{Frame};
ghost use Rattle.am_pcap.specs.Frames.{IsFramed, IsWithin, HasTag, IsTypePlace, TypeSays, VersionSays};

/// What the packets of a capture begin with.
#[derive(Clone, Copy, Debug, PartialEq, Eq)]
pub enum LinkKind {
    /// Link type 1: an Ethernet header.
    Ethernet,
    /// Link type 101: an IP header of either version.
    RawIp,
    /// Link type 229: an IPv6 header.
    RawIp6,
}

/// What a record's bytes hold.
#[derive(Clone, Copy, Debug, PartialEq, Eq)]
pub enum Frame {
    /// An IPv6 packet, whose first byte stands at this place.
    Ip6 { at: usize },
    /// Something else.
    Other,
    /// Nobody knows: the bytes that tell were not captured.
    Cut,
}

/// The place of the type behind the two addresses of an Ethernet frame.
const TYPE_PLACE: usize = 12;

/// The bytes of a tag.
const TAG_LENGTH: usize = 4;

/// The types that announce a tag (IEEE 802.1Q and 802.1ad), and that of IPv6 (RFC 2464, section 3).
const TAGGED: u32 = 0x8100;

const TAGGED_OUTER: u32 = 0x88A8;

const IP6: u32 = 0x86DD;

/// Where the IPv6 packet begins in these bytes of a record, of which all that the packet had were captured (`whole`) or
/// not.
///
/// Behind an Ethernet header at most two tags are followed. `Other`: something else than IPv6 stands there, a third tag
/// among it, or all bytes were captured and there are too few to tell. `Cut`: there are too few to tell, and more were
/// not captured.
pub fn packet_of(link: LinkKind, bytes: &[u8], whole: bool) -> Frame
    ensures framed { IsFramed link bytes.now whole result }
    // Nothing else stands there.
    ensures only { (f : Frame) → IsFramed link bytes.now whole f → result ≡ f }
    ensures within { IsWithin result bytes.now }
{
    match link {
        LinkKind::Ethernet => framed_at(bytes, type_place(bytes), whole),
        LinkKind::RawIp => raw_ip(bytes, whole),
        LinkKind::RawIp6 => Frame::Ip6 { at: 0 },
    }
}

// What stands where bytes that would tell are missing.
fn untold(whole: bool) -> Frame
    ensures { result ≡ frames.untold whole }
{
    if whole { Frame::Other } else { Frame::Cut }
}

// What the first byte of a raw IP packet says.
fn raw_ip(bytes: &[u8], whole: bool) -> Frame
    ensures says { VersionSays bytes.now whole result }
    ensures within { IsWithin result bytes.now }
{
    match bytes.first() {
        None => untold(whole),
        Some(first) => {
            if first / 16 == 6 {
                Frame::Ip6 { at: 0 }
            } else {
                Frame::Other
            }
        }
    }
}

// The place of an Ethernet frame's type.
fn type_place(bytes: &[u8]) -> usize
    ensures place { IsTypePlace bytes.now result }
    ensures bound { result ≤ 20 }
{
    if !has_tag(bytes, TYPE_PLACE) {
        return TYPE_PLACE;
    }
    if !has_tag(bytes, TYPE_PLACE + TAG_LENGTH) {
        return TYPE_PLACE + TAG_LENGTH;
    }
    TYPE_PLACE + 2 * TAG_LENGTH
}

// Whether a tag stands at a place.
fn has_tag(bytes: &[u8], at: usize) -> bool
    requires { at ≤ 20 }
    ensures { IsTrue result ↔ HasTag bytes.now at }
{
    if bytes.len() < at + 2 {
        return false;
    }
    let kind = type_at(bytes, at);
    if kind == TAGGED {
        return true;
    }
    kind == TAGGED_OUTER
}

// What a type at a place says.
fn framed_at(bytes: &[u8], at: usize, whole: bool) -> Frame
    requires { at ≤ 20 }
    ensures says { TypeSays bytes.now whole at result }
    ensures within { IsWithin result bytes.now }
{
    if bytes.len() < at + 2 {
        return untold(whole);
    }
    if type_at(bytes, at) == IP6 {
        Frame::Ip6 { at: at + 2 }
    } else {
        Frame::Other
    }
}

// The type at a place, in network order.
fn type_at(bytes: &[u8], at: usize) -> u32
    requires { at + 2 ≤ length bytes.now }
    ensures { result ≡ frames.type_at bytes.now at }
{
    u32::from(bytes[at]) * 256 + u32::from(bytes[at + 1])
}
