//! What holds of captures and of what their bytes begin with: laws, each the contract of a function that does nothing.
ghost use Rattle.std.specs.Prelude.{◌≡◌, ◌++◌, ◌⊎◌, ◌<◌, ◌^◌, ℕ, List, [], Bool, length, All, slice_index};
ghost use Rattle.am_pcap.specs.Packets.{Packet};
ghost use Rattle.am_pcap.specs.Spelling.{capture_bytes, FitsRecord, IsSpelled};
ghost use Rattle.am_pcap.specs.Heads.{IsHead};
ghost use Rattle.am_pcap.specs.Captures.{IsCapture};
ghost use Rattle.am_pcap.specs.CaptureFiles.{BeginsWith, HasHead, IsFrontOf, IsRefusedHeader, IsRefusedIn};
ghost use Rattle.am_pcap.specs.Frames.{IsFramed};
ghost use Rattle.am_pcap.specs.declared.frame.Frame.{Frame};
ghost use Rattle.am_pcap.specs.declared.frame.LinkKind.{LinkKind};
ghost use Rattle.am_pcap.specs.declared.head.Head.{Head};
ghost use Rattle.am_pcap.specs.declared.refusal.CapError.{CapError};

use crate::head::FILE_HEAD;

/// Bytes that are a capture have one file header and one list of packets, and are not refused. Bytes that are refused
/// are so for one reason, behind one list of packets, and behind none where the file header is refused.
pub fn captures_are_one()
    ensures one { (bytes : List ℕ) (h k : Head) (ps qs : List Packet)
        → IsCapture bytes h ps → IsCapture bytes k qs → (h ≡ k) × (ps ≡ qs) }
    ensures not_refused { (bytes : List ℕ) (h : Head) (e : CapError) (ps qs : List Packet)
        → IsCapture bytes h ps → IsRefusedIn bytes e qs → ⊥ }
    ensures refused_once { (bytes : List ℕ) (d e : CapError) (ps qs : List Packet)
        → IsRefusedIn bytes d ps → IsRefusedIn bytes e qs → (d ≡ e) × (ps ≡ qs) }
    ensures header { (bytes : List ℕ) (e : CapError) → IsRefusedHeader bytes e
        → IsRefusedIn bytes e [] }
{}

/// What bytes begin with: their file header is one, and is not refused. A capture's packets, and those before what is
/// refused, begin with the packets that its bytes begin with. Of two lists of packets that bytes begin with, one begins
/// with the other.
pub fn beginnings_agree()
    ensures head { (bytes : List ℕ) (h k : Head) (ps : List Packet)
        → BeginsWith bytes h ps → HasHead bytes k → h ≡ k }
    ensures capture { (bytes : List ℕ) (h k : Head) (ps qs : List Packet)
        → BeginsWith bytes h ps → IsCapture bytes k qs
        → (h ≡ k) × (more : List Packet) × (qs ≡ ps ++ more) }
    ensures both { (bytes : List ℕ) (h k : Head) (ps qs : List Packet)
        → BeginsWith bytes h ps → BeginsWith bytes k qs
        → (h ≡ k) × (IsFrontOf ps qs ⊎ IsFrontOf qs ps) }
    ensures not_refused { (bytes : List ℕ) (h : Head) (ps : List Packet) (e : CapError)
        → BeginsWith bytes h ps → IsRefusedHeader bytes e → ⊥ }
    ensures refused { (bytes : List ℕ) (h : Head) (e : CapError) (ps qs : List Packet)
        → BeginsWith bytes h ps → IsRefusedIn bytes e qs → IsFrontOf ps qs }
{}

/// The bytes of a record hold one frame.
pub fn frames_are_one()
    ensures { (link : LinkKind) (bytes : List ℕ) (whole : Bool) (f g : Frame)
        → IsFramed link bytes whole f → IsFramed link bytes whole g → f ≡ g }
{}

/// A capture is its file header and then its records, each in the one way in which it is spelled; and bytes that are so
/// spelled are read back.
pub fn captures_are_spelled()
    ensures spelled { (bytes : List ℕ) (h : Head) (ps : List Packet)
        → ((k : ℕ) → slice_index bytes k < 2 ^ 8) → IsCapture bytes h ps
        → IsSpelled bytes h ps }
    ensures read_back { (h : Head) (ps : List Packet)
        → length h.raw ≡ FILE_HEAD → IsHead h h.raw → All FitsRecord ps
        → IsCapture (capture_bytes h ps) h ps }
{}
