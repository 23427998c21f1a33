//! A run, read part by part.
ghost use Rattle.std.specs.Prelude.{◌≢◌, IfErr};
ghost use Rattle.totem_names.specs.Sources.{seen};

use crate::form::RunText;
use crate::heads::read_header;
use crate::part::Part;
use crate::part_reader::PartReader;
use crate::run_fault::RunFault;
use std::alloc::Global;
use std::fmt;
use std::marker::Model;
use totem_names::Source;

/// What `RunReader::next` returns.
#[derive(Debug, Drop)]
pub enum Next {
    /// The next part, and the reader of what follows it.
    Part(Part, RunReader),
    /// The run has ended.
    End,
}

/// Reads a run part by part. It keeps what the rules need, and what is likely to come again: how lines begin, and the members of the last
/// change.
#[derive(Drop)]
pub struct RunReader {
    parts: PartReader,
}

impl Model for RunReader {
    ghost use Rattle.totem_evs.specs.ReadState.{ReadState, IsReadState};

    ghost Value = { ReadState };

    ghost view = { λ r. r.parts };

    ghost invariant = { λ r. IsReadState r.parts };
}

impl RunReader {
    ghost use Rattle.totem_evs.specs.Reading.{BeginsRun, ReadsNext};

    /// Reads the first line, and returns the reader of what follows it.
    pub fn begin<S: Source>(alloc: Global, source: &mut S) -> Result<RunReader, RunFault>
        ensures begins { BeginsRun (seen S.remaining S.failures source.old)
            (seen S.remaining S.failures source.new) result }
        // It allocates nothing.
        ensures memory { IfErr result (λ e. e ≢ RunFault.Memory) }
    {
        let version = read_header::<RunText, S>(source)?;
        let parts = PartReader::new(alloc, version);
        Ok(RunReader { parts })
    }

    /// Reads the next part, and returns it with the reader of what follows it. A fault consumes the reader. A
    /// member without a log is found at the end of the run.
    pub fn next<S: Source>(self, alloc: Global, source: &mut S) -> Result<Next, RunFault>
        ensures { ReadsNext (seen S.remaining S.failures source.old)
            (seen S.remaining S.failures source.new) self result }
    {
        let RunReader { mut parts } = self;
        match parts.next(alloc, source)? {
            None => Ok(Next::End),
            Some(part) => Ok(Next::Part(part, RunReader { parts })),
        }
    }
}

impl fmt::Debug for RunReader {
    fn fmt<W: fmt::Write>(&self, f: &mut fmt::Formatter<W>) -> fmt::Result {
        let PartReader {
            stage,
            roster,
            repeats: _,
        } = &self.parts;
        write!(f, "RunReader({stage:?}, {roster:?})")
    }
}
