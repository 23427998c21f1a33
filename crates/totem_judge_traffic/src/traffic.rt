//! The traffic of one regular configuration: what was sent in it, and which logs deliver it there or in what follows it.
ghost use Rattle.std.specs.Prelude.{◌≡◌, ◌⊎◌, ◌↔◌, ◌<◌, ℕ};

use crate::log_set::LogSet;
use totem_names::MsgId;

/// A message that was sent in the configuration.
#[derive(Clone, Copy)]
pub struct Sent {
    pub message: MsgId,
    /// The log that sends it, by index.
    pub sender: u32,
    /// How many messages are delivered, in the configuration or in what follows it, before this one is sent.
    pub before: u32,
    /// The logs that deliver it, in the configuration or in what follows it.
    pub by: LogSet,
    ghost in_range: { sender < 32 },
}

/// A message that is delivered in the configuration, or in what follows it.
#[derive(Clone, Copy)]
pub struct Got {
    /// Its index in the list of what was sent.
    pub sent: u32,
    /// The log that sent it, by index.
    pub sender: u32,
    /// Whether it was sent as a safe message.
    pub safe: bool,
    /// The logs that deliver it in the configuration itself.
    pub regular: LogSet,
    /// The logs that deliver it in what follows the configuration.
    pub transitional: LogSet,
    ghost in_range: { sender < 32 },
}

/// The members of a configuration: their logs, and whether each of them has one.
#[derive(Clone, Copy)]
pub struct MemberLogs {
    pub logs: LogSet,
    pub all: bool,
}

/// A transitional configuration that follows the regular one.
#[derive(Clone, Copy)]
pub struct Following {
    pub members: MemberLogs,
    /// The logs in which it follows.
    pub logs: LogSet,
    /// The logs that change from it to a next configuration.
    pub left: LogSet,
}

/// What is kept about a regular configuration and what follows it, in the order of the numbers of a certificate.
#[derive(Drop)]
pub struct Traffic {
    pub sent: Vec<Sent>,
    pub got: Vec<Got>,
    /// The logs that change to the configuration.
    pub logs: LogSet,
    pub members: MemberLogs,
    /// The logs that fail or are open there.
    pub ended: LogSet,
    /// The logs that are open there.
    pub open: LogSet,
    pub following: Vec<Following>,
}

impl Got {
    ghost use Rattle.totem_judge_traffic.specs.LogSets.{Has};

    /// Returns the logs that deliver the message.
    pub fn by(&self) -> LogSet
        ensures { (log : ℕ) → Has result log ↔ (Has self.now.regular log ⊎ Has self.now.transitional log) }
    {
        self.regular.union(self.transitional)
    }
}
