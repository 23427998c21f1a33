ghost use Rattle.std.specs.Prelude.{◌≡◌, ◌↔◌, IsTrue, IfOk};
ghost use Rattle.totem_evs.specs.Classes.{AreOfOneClass};
ghost use Rattle.totem_evs.specs.Missing.{members_of};
ghost use Rattle.totem_evs.specs.Runs.{IsEntry, IsFailure};

use crate::members::Members;
use std::alloc::{AllocError, Global};
use totem_names::{ConfId, Listed, MsgId, Proc, Service, conf_fits, message_fits};

/// An entry of a log: one event of a process, as the process recorded it.
#[derive(Debug, Drop)]
pub enum Entry {
    /// The process changed to this configuration, which has these members.
    Conf(ConfId, Members),
    /// The process sent a message in this configuration.
    Send(MsgId, ConfId, Service),
    /// The process delivered a message in this configuration.
    Deliver(MsgId, ConfId),
    /// The process failed in this configuration.
    Fail(ConfId),
}

impl Entry {
    /// Does nothing. Its contract says that names are in range and members are ascending, which the types of the entry's parts ensure.
    pub(crate) fn keeps_its_rule(&self)
        ensures { IsEntry self.now }
    {
        match self {
            Entry::Conf(conf, members) => {
                conf_fits(conf);
                let _ = members.as_slice();
            }
            Entry::Send(message, conf, _) => {
                message_fits(message);
                conf_fits(conf);
            }
            Entry::Deliver(message, conf) => {
                message_fits(message);
                conf_fits(conf);
            }
            Entry::Fail(conf) => conf_fits(conf),
        }
    }

    pub fn is_failure(&self) -> bool
        ensures { IsTrue result ↔ IsFailure self.now }
    {
        matches!(self, Entry::Fail(_))
    }

    /// Returns the members that a change names, and no processes for any other entry.
    pub(crate) fn members(&self) -> &[Proc]
        ensures { result.now ≡ members_of self.now }
    {
        match self {
            Entry::Conf(_, members) => members.as_slice(),
            _ => &[],
        }
    }

    /// Returns whether the two are the same entry: `==` in a form that contracts can use.
    pub fn is(&self, other: &Entry) -> bool
        ensures { IsTrue result ↔ (self.now ≡ other.now) }
    {
        match (self, other) {
            (Entry::Conf(conf, members), Entry::Conf(same, procs)) => {
                conf.is(same) && members.is(procs)
            }
            (Entry::Send(message, conf, service), Entry::Send(id, same, kind)) => {
                *message == *id && conf.is(same) && *service == *kind
            }
            (Entry::Deliver(message, conf), Entry::Deliver(id, same)) => {
                *message == *id && conf.is(same)
            }
            (Entry::Fail(conf), Entry::Fail(same)) => conf.is(same),
            _ => false,
        }
    }

    /// Returns whether this entry is of the class of the other: both change to one configuration, or both deliver one message.
    pub fn is_of_class_of(&self, other: &Entry) -> bool
        ensures { IsTrue result ↔ AreOfOneClass self.now other.now }
    {
        match (self, other) {
            (Entry::Conf(conf, _), Entry::Conf(same, _)) => conf.is(same),
            (Entry::Deliver(message, _), Entry::Deliver(same, _)) => *message == *same,
            _ => false,
        }
    }

    pub fn try_clone(&self, alloc: Global) -> Result<Entry, AllocError>
        ensures { IfOk result (λ e. e ≡ self.now) }
    {
        Ok(match self {
            Entry::Conf(conf, members) => Entry::Conf(*conf, members.try_clone()?),
            Entry::Send(message, conf, service) => Entry::Send(*message, *conf, *service),
            Entry::Deliver(message, conf) => Entry::Deliver(*message, *conf),
            Entry::Fail(conf) => Entry::Fail(*conf),
        })
    }
}

impl Listed for Entry {
    ghost keeps = { IsEntry };

    fn keeps_its_rule(&self) {
        Entry::keeps_its_rule(self);
    }

    fn is(&self, other: &Entry) -> bool {
        Entry::is(self, other)
    }

    fn try_clone(&self, alloc: Global) -> Result<Entry, AllocError> {
        Entry::try_clone(self, alloc)
    }
}
