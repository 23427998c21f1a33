//! The members of a change, with their text.
ghost use Rattle.std.specs.Prelude.{◌≡◌, Ok, IfNone, IfSome};
ghost use Rattle.std.specs.Io.KnownBytes.{Keeps};
ghost use Rattle.totem_names.specs.Sources.{Comes, Settles, Stands, seen};
ghost use Rattle.totem_names.specs.declared.version.Version.{Version};
ghost use Rattle.totem_evs.specs.RunGrammar.{members_at};

use crate::lines::read_members;
use crate::members::Members;
use std::alloc::{AllocError, Global};
use totem_names::{FromRead, ReadError, Source, Version};

/// The members of a change, with their text up to the end of the line.
#[derive(Drop)]
pub struct Roll {
    version: Version,
    members: Members,
    text: Vec<u8>,
    ghost spelled: { Settles (members_at version 32 0) text.items members },
}

impl Roll {
    /// Returns the members whose text comes first in these bytes, or `None` if none does.
    pub fn of(alloc: Global, bytes: &[u8], version: Version) -> Result<Option<Roll>, AllocError> {
        let Some(at) = bytes.iter().position(|byte| *byte == b'\n') else {
            return Ok(None);
        };
        let Some(line) = bytes.get(..=at) else {
            return Ok(None);
        };
        let mut source = FromRead::new(line);
        let members = match read_members(alloc, &mut source, version) {
            Ok(members) => members,
            Err(ReadError::Memory) => return Err(AllocError),
            Err(_) => return Ok(None),
        };
        let Ok(None) = source.byte() else {
            return Ok(None);
        };
        let mut text = Vec::new(alloc);
        text.extend_from_slice(line)?;
        Ok(Some(Roll {
            version,
            members,
            text,
        }))
    }

    /// Returns the members if their text is at this index, and the index of what follows.
    #[inline(always)]
    pub fn members_in(&self, bytes: &[u8], at: usize, version: Version) -> Option<(Members, usize)>
        ensures { IfSome result (λ r. Stands bytes.now at r.1 (members_at version 32 0) r.0) }
    {
        let text = self.text.as_slice();
        let rest = bytes.get(at..)?;
        let begins = rest.starts_with(text);
        if version != self.version || !begins {
            return None;
        }
        let Ok(members) = self.members.try_clone() else {
            return None;
        };
        Some((members, at + text.len()))
    }

    /// Takes the text of the members if it comes next and is at hand. Otherwise takes nothing.
    pub fn take<S: Source>(&self, source: &mut S, version: Version) -> Option<Members>
        ensures taken { IfSome result (λ m. Comes (seen S.remaining S.failures source.old)
            (seen S.remaining S.failures source.new) (members_at version 32 0) (λ more. Ok (m, more))) }
        ensures kept { IfNone result (Keeps (S.remaining source.old) (S.remaining source.new)) }
        ensures failures { S.failures source.new ≡ S.failures source.old }
    {
        let bytes = source.at_hand();
        let (members, count) = self.members_in(bytes, 0, version)?;
        if count > bytes.len() {
            return None;
        }
        let skipped = source.skip(count);
        if !skipped {
            return None;
        }
        Some(members)
    }
}
