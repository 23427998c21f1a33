use totem_names::{ConfId, MsgId, Proc};

/// A process that has not delivered a message and is open where the message was sent: it may still deliver it.
#[derive(Clone, Copy, Debug, PartialEq, Eq, PartialOrd, Ord, Hash)]
pub struct Pending {
    pub proc: Proc,
    pub msg: MsgId,
}

/// A process that is in a configuration and waits for another member of it, which is not.
#[derive(Clone, Copy, Debug, PartialEq, Eq, PartialOrd, Ord, Hash)]
pub struct Waiting {
    pub proc: Proc,
    pub conf: ConfId,
    pub other: Proc,
}
