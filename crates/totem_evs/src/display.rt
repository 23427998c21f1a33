//! `Display` for entries and for the lines of a report (docs/SPECIFICATIONS.md, "Run text" and "Report text").
ghost use Rattle.std.specs.Prelude.{Some};
ghost use Rattle.totem_evs.specs.ReportText.{places_text, fault_text, pending_text, waiting_text};
ghost use Rattle.totem_evs.specs.RunText.{members_text, entry_text, known_text};

use crate::entry::Entry;
use crate::fault::{Fault, Places};
use crate::members::Members;
use crate::pending::{Pending, Waiting};
use std::fmt;

/// The members of a line, a space before each.
#[derive(Drop)]
struct LineMembers<'a> {
    members: &'a Members,
}

impl fmt::Display for LineMembers<'_> {
    ghost output = { λ line. Some (members_text known_text line.members.now) };

    fn fmt<W: fmt::Write>(&self, f: &mut fmt::Formatter<W>) -> fmt::Result {
        for proc in self.members.as_slice() {
            let proc = proc.written(proc.first_version());
            write!(f, " {proc}")?;
        }
        Ok(())
    }
}

/// The places of a line, a space before each.
#[derive(Drop)]
struct LinePlaces<'a> {
    places: &'a Places,
}

impl fmt::Display for LinePlaces<'_> {
    ghost output = { λ line. Some (places_text known_text line.places.now) };

    fn fmt<W: fmt::Write>(&self, f: &mut fmt::Formatter<W>) -> fmt::Result {
        for place in self.places.as_slice() {
            write!(f, " {place}")?;
        }
        Ok(())
    }
}

/// Writes the line of the entry without its end, as in `conf r4.1 1 2`, `send r4.1 a 4.1#1`, `dlv r4.1 4.1#1` or `fail r4.1`.
impl fmt::Display for Entry {
    ghost output = { λ entry. Some (entry_text known_text entry) };

    fn fmt<W: fmt::Write>(&self, f: &mut fmt::Formatter<W>) -> fmt::Result {
        match self {
            Entry::Conf(conf, members) => {
                let members = LineMembers { members };
                write!(f, "conf {conf}{members}")
            }
            Entry::Send(message, conf, service) => write!(f, "send {conf} {service} {message}"),
            Entry::Deliver(message, conf) => write!(f, "dlv {conf} {message}"),
            Entry::Fail(conf) => write!(f, "fail {conf}"),
        }
    }
}

/// Writes the specification and the places, as in `fault 6.1 1@3 2@2`.
impl fmt::Display for Fault {
    ghost output = { λ fault. Some (fault_text known_text fault) };

    fn fmt<W: fmt::Write>(&self, f: &mut fmt::Formatter<W>) -> fmt::Result {
        let spec = self.spec;
        let places = LinePlaces {
            places: &self.places,
        };
        write!(f, "fault {spec}{places}")
    }
}

/// Writes the process and the message, as in `pending 3 4.1#1`.
impl fmt::Display for Pending {
    ghost output = { λ pending. Some (pending_text known_text pending) };

    fn fmt<W: fmt::Write>(&self, f: &mut fmt::Formatter<W>) -> fmt::Result {
        let proc = self.proc.written(self.proc.first_version());
        let msg = self.msg;
        write!(f, "pending {proc} {msg}")
    }
}

/// Writes the process, the configuration and the member that it waits for, as in `waiting 3 r4.1 1`.
impl fmt::Display for Waiting {
    ghost output = { λ waiting. Some (waiting_text known_text waiting) };

    fn fmt<W: fmt::Write>(&self, f: &mut fmt::Formatter<W>) -> fmt::Result {
        let proc = self.proc.written(self.proc.first_version());
        let conf = self.conf;
        let other = self.other.written(self.other.first_version());
        write!(f, "waiting {proc} {conf} {other}")
    }
}
