//! The headers of a capture: that of the file, and that of a record.
ghost use Rattle.std.specs.Prelude.{◌≡◌, ◌+◌, ◌++◌, ◌∷◌, ℕ, [], ◌<◌, ◌≤◌, ◌≢◌, ◌^◌, ◌↔◌, List, length, IfSome, IfNone, IsTrue, cond};
ghost use Rattle.std.specs.Int.{w32, to_be_bytes, to_le_bytes};
ghost use Rattle.am_pcap.specs.Packets.{word, HoldsPackets};
ghost use Rattle.am_pcap.specs.Spelling.{head_spelled};
ghost use Rattle.am_pcap.specs.Heads.{half_word, magic_of, link_number, link_bits, HasMagic, IsHead, IsJudged, SomeMagic};
ghost use Rattle.am_pcap.specs.declared.frame.LinkKind.{LinkKind};

use crate::frame::LinkKind;
use crate::record::Form;
use crate::refusal::CapError;

/// The bytes of a file header.
pub const FILE_HEAD: usize = 24;

/// The header of a capture's file.
#[derive(Clone, Copy, Debug, PartialEq, Eq)]
pub struct Head {
    /// Its 24 bytes, as they stand in the file.
    pub raw: [u8; FILE_HEAD],
    /// How the numbers of the file are written.
    pub form: Form,
    /// What the packets of the file begin with.
    pub link: LinkKind,
}

/// The magic numbers of files whose fractions are in microseconds and in nanoseconds.
const MICRO: u32 = 0xa1b2_c3d4;

const NANO: u32 = 0xa1b2_3c4d;

/// The four forms of a capture.
const LITTLE_MICRO: Form = Form {
    big: false,
    nano: false,
};

const LITTLE_NANO: Form = Form {
    big: false,
    nano: true,
};

const BIG_MICRO: Form = Form {
    big: true,
    nano: false,
};

const BIG_NANO: Form = Form {
    big: true,
    nano: true,
};

/// The 24 bytes of a file header of this form and link type, in the form's byte order: zone and accuracy are 0, the
/// snapshot length is 262,144, and the upper 16 bits of the link type are 0.
#[tactic(auto, unfolding(crate::specs::Packets::word, crate::specs::Heads::half_word))]
pub fn file_head(form: Form, link: LinkKind) -> [u8; FILE_HEAD]
    ensures read_back { IsHead (record { raw = result; form = form; link = link }) result }
    ensures zone { word form.big result 8 ≡ 0 }
    ensures accuracy { word form.big result 12 ≡ 0 }
    ensures snapshot { word form.big result 16 ≡ 262144 }
    ensures upper { word form.big result 20 ≡ link_number link }
{
    let m = word_bytes(form.big, magic(form.nano));
    let s = word_bytes(form.big, 262_144);
    let k = word_bytes(form.big, number_of(link));
    if form.big {
        [
            m[0], m[1], m[2], m[3], 0, 2, 0, 4, 0, 0, 0, 0, 0, 0, 0, 0, s[0], s[1], s[2], s[3],
            k[0], k[1], k[2], k[3],
        ]
    } else {
        [
            m[0], m[1], m[2], m[3], 2, 0, 4, 0, 0, 0, 0, 0, 0, 0, 0, 0, s[0], s[1], s[2], s[3],
            k[0], k[1], k[2], k[3],
        ]
    }
}

/// The 16 bytes of a record header with these numbers, in the form's byte order: the seconds and the fraction of its
/// time, how many bytes were captured, and how many the packet had on the wire.
#[tactic(auto, unfolding(crate::specs::Packets::word))]
pub fn record_head(
    form: Form,
    seconds: u32,
    fraction: u32,
    captured: u32,
    original: u32,
) -> [u8; 16]
    ensures seconds { word form.big result 0 ≡ seconds }
    ensures fraction { word form.big result 4 ≡ fraction }
    ensures captured { word form.big result 8 ≡ captured }
    ensures original { word form.big result 12 ≡ original }
    ensures bytes { result ≡ head_spelled form.big seconds fraction captured original }
    ensures spelled { (bytes : List ℕ) → length bytes ≡ captured → captured ≤ 262144
        → HoldsPackets form.big (result ++ bytes)
        (record { seconds = seconds; fraction = fraction; original = original; bytes = bytes } ∷ [])
        [] }
{
    let a = word_bytes(form.big, seconds);
    let b = word_bytes(form.big, fraction);
    let c = word_bytes(form.big, captured);
    let d = word_bytes(form.big, original);
    [
        a[0], a[1], a[2], a[3], b[0], b[1], b[2], b[3], c[0], c[1], c[2], c[3], d[0], d[1], d[2],
        d[3],
    ]
}

// What 24 bytes are as a file header: magic, then version, then link type.
pub fn judge(raw: [u8; FILE_HEAD]) -> Result<Head, CapError>
    ensures { IsJudged result raw }
{
    let Some(form) = form_of(&raw) else {
        return Err(CapError::BadMagic);
    };
    if half_at(form.big, &raw, 4) != 2 {
        return Err(CapError::BadVersion);
    }
    if half_at(form.big, &raw, 6) != 4 {
        return Err(CapError::BadVersion);
    }
    let link = link_at(form.big, &raw);
    match kind_of(link) {
        Some(link) => Ok(Head { raw, form, link }),
        None => Err(CapError::UnknownLink { link }),
    }
}

// The form whose magic stands at the front.
#[tactic(auto, using(crate::proofs::Judged::no_form))]
fn form_of(bytes: &[u8]) -> Option<Form>
    requires { length bytes.now ≡ FILE_HEAD }
    ensures { SomeMagic result bytes.now }
{
    if has_magic(bytes, LITTLE_MICRO) {
        return Some(LITTLE_MICRO);
    }
    if has_magic(bytes, LITTLE_NANO) {
        return Some(LITTLE_NANO);
    }
    if has_magic(bytes, BIG_MICRO) {
        return Some(BIG_MICRO);
    }
    if has_magic(bytes, BIG_NANO) {
        return Some(BIG_NANO);
    }
    None
}

// Whether the magic of a form stands at the front.
fn has_magic(bytes: &[u8], form: Form) -> bool
    requires { length bytes.now ≡ FILE_HEAD }
    ensures { IsTrue result ↔ HasMagic form bytes.now }
{
    let word = word_bytes(form.big, magic(form.nano));
    &bytes[..4] == word.as_slice()
}

// The lower 16 bits of the link type.
fn link_at(big: bool, bytes: &[u8]) -> u16
    requires { length bytes.now ≡ FILE_HEAD }
    ensures { result ≡ link_bits big bytes.now }
{
    (word_at(big, bytes, 20) % 65_536) as u16
}

// The link type of this number.
fn kind_of(link: u16) -> Option<LinkKind>
    ensures known { IfSome result (λ k. link ≡ link_number k) }
    ensures unknown { IfNone result ((k : LinkKind) → link ≢ link_number k) }
{
    match link {
        1 => Some(LinkKind::Ethernet),
        101 => Some(LinkKind::RawIp),
        229 => Some(LinkKind::RawIp6),
        _ => None,
    }
}

// The number of a link type.
fn number_of(link: LinkKind) -> u32
    ensures value { result ≡ link_number link }
    ensures small { result < 2 ^ 16 }
{
    match link {
        LinkKind::Ethernet => 1,
        LinkKind::RawIp => 101,
        LinkKind::RawIp6 => 229,
    }
}

// The magic of a form.
fn magic(nano: bool) -> u32
    ensures { result ≡ magic_of nano }
{
    if nano { NANO } else { MICRO }
}

// The four bytes of a number in a byte order.
#[tactic(auto, unfolding(crate::specs::Packets::word))]
fn word_bytes(big: bool, n: u32) -> [u8; 4]
    ensures word { word big result 0 ≡ n }
    ensures bytes { result ≡ cond big (to_be_bytes w32 n) (to_le_bytes w32 n) }
{
    if big {
        n.to_be_bytes()
    } else {
        n.to_le_bytes()
    }
}

/// The 32-bit number at a place of the bytes, in a byte order.
#[tactic(auto, unfolding(crate::specs::Packets::word))]
pub fn word_at(big: bool, bytes: &[u8], at: usize) -> u32
    requires { at + 4 ≤ length bytes.now }
    ensures { result ≡ word big bytes.now at }
{
    let four = [bytes[at], bytes[at + 1], bytes[at + 2], bytes[at + 3]];
    if big {
        u32::from_be_bytes(four)
    } else {
        u32::from_le_bytes(four)
    }
}

// The 16-bit number at a place of the bytes, in a byte order.
#[tactic(auto, unfolding(crate::specs::Heads::half_word))]
fn half_at(big: bool, bytes: &[u8], at: usize) -> u16
    requires { at + 2 ≤ length bytes.now }
    ensures { result ≡ half_word big bytes.now at }
{
    let two = [bytes[at], bytes[at + 1]];
    if big {
        u16::from_be_bytes(two)
    } else {
        u16::from_le_bytes(two)
    }
}
