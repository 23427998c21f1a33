//! `Display` for names: each writes its one spelling (docs/SPECIFICATIONS.md, "Names").
ghost use Rattle.std.specs.Prelude.{Some, decimal};
ghost use Rattle.totem_names.specs.Texts.{ring_text, conf_text, message_text, service_text};
ghost use Rattle.totem_names.specs.Processes.{place_text};

use crate::conf::ConfId;
use crate::message::{MsgId, Service};
use crate::place::Place;
use crate::process::ProcId;
use crate::ring::RingId;
use std::fmt;

/// Writes the number, as in `7`.
impl fmt::Display for ProcId {
    ghost output = { λ p. Some (decimal p) };

    fn fmt<W: fmt::Write>(&self, f: &mut fmt::Formatter<W>) -> fmt::Result {
        let number = self.number();
        write!(f, "{number}")
    }
}

/// Writes the number and the representative, as in `4.1`.
impl fmt::Display for RingId {
    ghost output = { λ c. Some (ring_text c) };

    fn fmt<W: fmt::Write>(&self, f: &mut fmt::Formatter<W>) -> fmt::Result {
        let seq = self.seq;
        let rep = self.rep;
        write!(f, "{seq}.{rep}")
    }
}

/// Writes the ring, as in `r4.1`, or the next ring and the least member, as in `t8.1/1`.
impl fmt::Display for ConfId {
    ghost output = { λ c. Some (conf_text c) };

    fn fmt<W: fmt::Write>(&self, f: &mut fmt::Formatter<W>) -> fmt::Result {
        match self {
            ConfId::Regular(ring) => write!(f, "r{ring}"),
            ConfId::Transitional { next, least } => write!(f, "t{next}/{least}"),
        }
    }
}

/// Writes the ring and the number, as in `4.1#7`.
impl fmt::Display for MsgId {
    ghost output = { λ m. Some (message_text m) };

    fn fmt<W: fmt::Write>(&self, f: &mut fmt::Formatter<W>) -> fmt::Result {
        let ring = self.ring;
        let number = self.number;
        write!(f, "{ring}#{number}")
    }
}

/// Writes the process and the entry, as in `2@5`, or in `2:3@5` where the life is not 1.
impl fmt::Display for Place {
    ghost output = { λ e. Some (place_text e) };

    fn fmt<W: fmt::Write>(&self, f: &mut fmt::Formatter<W>) -> fmt::Result {
        let proc = self.proc.written(self.proc.first_version());
        let at = self.at;
        write!(f, "{proc}@{at}")
    }
}

/// Writes the letter `a` for agreed or `s` for safe.
impl fmt::Display for Service {
    ghost output = { λ s. Some (service_text s) };

    fn fmt<W: fmt::Write>(&self, f: &mut fmt::Formatter<W>) -> fmt::Result {
        match self {
            Service::Agreed => f.write_str("a"),
            Service::Safe => f.write_str("s"),
        }
    }
}
