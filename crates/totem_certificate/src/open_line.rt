ghost use Rattle.std.specs.Prelude.{◌≡◌, [], ◌∷◌, ◌++◌, length, IfOk, OnOk, OnErr};
ghost use Rattle.totem_certificate.specs.Keeping.{IsLine};

use crate::line::Line;
use crate::numbers::Numbers;
use std::alloc::{AllocError, Global};
use std::marker::Model;
use totem_names::Proc;

/// A line of a certificate that is not complete yet: the numbers of a log's entries so far.
#[derive(Drop)]
pub struct OpenLine {
    proc: Proc,
    numbers: Vec<u32>,
}

impl Model for OpenLine {
    ghost use Rattle.totem_evs.specs.Certificates.{Numbering};

    ghost Value = { Numbering };

    ghost view = { λ l. record { proc = l.proc; numbers = l.numbers.items } };
}

impl OpenLine {
    /// Makes a line without numbers, with space for `room` of them.
    pub fn with_room(alloc: Global, proc: Proc, room: usize) -> Result<OpenLine, AllocError>
        ensures { IfOk result (λ line. line ≡ record { proc = proc; numbers = [] }) }
    {
        Ok(OpenLine {
            proc,
            numbers: Vec::with_capacity(alloc, room)?,
        })
    }

    pub fn proc(&self) -> Proc
        ensures { result ≡ self.now.proc }
    {
        self.proc
    }

    pub fn numbers(&self) -> &[u32]
        ensures { result.now ≡ self.now.numbers }
    {
        &self.numbers
    }

    /// Gives the next entry its number. If it fails, nothing has changed.
    pub fn push(&mut self, number: u32) -> Result<(), AllocError>
        ensures ok { OnOk result (self.new ≡ record self.old { numbers = self.old.numbers ++ number ∷ [] }) }
        ensures err { OnErr result (self.new ≡ self.old) }
    {
        self.numbers.push(number)?;
        Ok(())
    }

    /// Returns the complete line.
    pub fn close(self) -> Line
        requires { IsLine self }
        ensures { result ≡ self }
    {
        let OpenLine { proc, numbers } = self;
        Line {
            proc,
            numbers: Numbers::of(numbers),
        }
    }
}
