//! What happens to one packet on its way to one receiver.
/// The fate of a packet on its way to one receiver: how many copies arrive, from none to two, and how many further packets
/// for that receiver pass before the first and before the second copy.
#[derive(Clone, Copy, Debug, PartialEq, Eq)]
pub struct Fate {
    pub copies: u8,
    pub first: u8,
    pub second: u8,
}
