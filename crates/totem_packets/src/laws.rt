//! Laws of the bytes of packets. Each is the contract of an empty function.
ghost use Rattle.std.specs.Prelude.{◌≡◌, ◌≢◌, ℕ, ◌↔◌, List, ◌∷◌, ◌++◌, Ok, Err};
ghost use Rattle.totem_packets.specs.declared.fault.PacketFault.TheVariants.{Short, Kind, Range, Trailing, Memory};
ghost use Rattle.totem_packets.specs.declared.packet.Packet.{Packet};
ghost use Rattle.totem_packets.specs.Grammar.{decode_packet};
ghost use Rattle.totem_packets.specs.Laws.{IsOfNoKind, HasMore, IsFirstWrong, TellsLaterLife};
ghost use Rattle.totem_packets.specs.Parsing.{AreBytes};
ghost use Rattle.totem_packets.specs.Ranges.{IsPacket};
ghost use Rattle.totem_packets.specs.Spelling.{packet_bytes};

/// Bytes that the grammar reads as a packet are the packet's spelling, and its values are in range.
#[tactic(auto, using(crate::proofs::Decided::read_spelled))]
pub fn read_is_spelled()
    ensures { (bytes : List ℕ) (packet : Packet) → AreBytes bytes → decode_packet bytes ≡ Ok packet → IsPacket packet × (bytes ≡ packet_bytes packet) }
{}

/// The spelling of a packet is read as that packet.
#[tactic(auto, using(crate::proofs::Decided::spelled_read))]
pub fn spelled_is_read()
    ensures { (packet : Packet) → IsPacket packet → decode_packet (packet_bytes packet) ≡ Ok packet }
{}

/// The first byte of a packet is 5 exactly if the packet is a commit token in which a member reports from a life above the first.
#[tactic(auto, using(crate::proofs::KindOfLives::told_by_kind))]
pub fn kind_5_tells_later_lives()
    ensures { (packet : Packet) (kind : ℕ) (rest : List ℕ) → packet_bytes packet ≡ kind ∷ rest → (kind ≡ 5) ↔ TellsLaterLife packet }
{}

/// No spelling of a packet is the beginning of another.
#[tactic(auto, using(crate::proofs::Decided::begins_no_other))]
pub fn no_packet_begins_another()
    ensures { (a b : Packet) (more rest : List ℕ) → IsPacket a → IsPacket b → packet_bytes a ++ more ≡ packet_bytes b ++ rest → (a ≡ b) × (more ≡ rest) }
{}

/// A packet that is cut short has the fault Short.
#[tactic(auto, using(crate::proofs::Decided::cut_is_short))]
pub fn a_cut_packet_is_short()
    ensures { (packet : Packet) (front : List ℕ) (byte : ℕ) (rest : List ℕ) → IsPacket packet → packet_bytes packet ≡ front ++ byte ∷ rest → decode_packet front ≡ Err Short }
{}

/// A Short fault means that nothing is wrong with the bytes so far: each beginning of them is Short too.
#[tactic(auto, using(crate::proofs::Decided::short_before))]
pub fn short_has_nothing_wrong()
    ensures { (front rest : List ℕ) → decode_packet (front ++ rest) ≡ Err Short → decode_packet front ≡ Err Short }
{}

/// The fault is Kind exactly if the first byte is of no kind of packet.
#[tactic(auto, using(crate::proofs::Decided::kind_is_first))]
pub fn kind_is_the_first_byte()
    ensures { (bytes : List ℕ) → (decode_packet bytes ≡ Err Kind) ↔ IsOfNoKind bytes }
{}

/// The fault is Range as soon as a field's value is known to be wrong: before some byte nothing is wrong, and from that
/// byte on the fault is Range, whatever follows.
#[tactic(auto, using(crate::proofs::Decided::range_is_first))]
pub fn range_is_known_at_once()
    ensures { (bytes : List ℕ) → decode_packet bytes ≡ Err Range → IsFirstWrong bytes }
{}

/// The fault is Trailing exactly if more bytes follow a packet.
#[tactic(auto, using(crate::proofs::Decided::trailing_is_last))]
pub fn trailing_is_behind_a_packet()
    ensures { (bytes : List ℕ) → AreBytes bytes → (decode_packet bytes ≡ Err Trailing) ↔ HasMore bytes }
{}

/// The grammar never gives Memory, which is no fault of the bytes.
#[tactic(auto, using(crate::proofs::Decided::never_memory))]
pub fn memory_is_no_fault_of_bytes()
    ensures { (bytes : List ℕ) → decode_packet bytes ≢ Err Memory }
{}
