//! Classes of entries.
ghost use Rattle.std.specs.Prelude.{◌≡◌};
ghost use Rattle.totem_judge_certificate.specs.ClassOf.{class_of};

use totem_evs::Entry;
use totem_names::{ConfId, MsgId};

/// The changes to one configuration, or the deliveries of one message. They are one event, with one number.
#[derive(Clone, Copy, PartialEq, Eq, PartialOrd, Ord)]
pub enum Class {
    Change(ConfId),
    Delivery(MsgId),
}

impl Class {
    /// Returns the class of an entry, or `None` for a send or a failure: each of these is an event by itself.
    pub fn of(entry: &Entry) -> Option<Class>
        ensures { result ≡ class_of entry.now }
    {
        match entry {
            Entry::Conf(conf, _) => Some(Class::Change(*conf)),
            Entry::Deliver(message, _) => Some(Class::Delivery(*message)),
            Entry::Send(_, _, _) | Entry::Fail(_) => None,
        }
    }
}
