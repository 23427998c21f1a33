//! The lines of a script.
ghost use Rattle.std.specs.Prelude.{◌≡◌, [], ◌∷◌, MatchResult, MatchOption, IsTrue, ◌↔◌, Err, Ok};
ghost use Rattle.totem_script.specs.Lines.{lines_of};
ghost use Rattle.totem_script.specs.Judged.{Judged};

use crate::script_fault::ScriptFault;
use std::marker::Model;

/// The greatest size of a script in bytes.
const MOST: usize = 65_536;

/// An iterator over the lines of a script.
#[derive(Drop)]
pub struct Lines<'a> {
    /// What is left of the script.
    rest: &'a [u8],
    /// How many more bytes the script may have.
    room: usize,
}

impl<'a> Model for Lines<'a> {
    ghost use Rattle.std.specs.Prelude.{ℕ, List};
    ghost use Rattle.totem_script.specs.Judged.{Judged};
    ghost use Rattle.totem_script.specs.Lines.{lines_of};

    ghost Value = { List (Judged (List ℕ)) };

    ghost view = { λ l. lines_of l.room l.rest.now };
}

impl<'a> Lines<'a> {
    /// Begins with the first line of this script.
    pub fn new(script: &'a [u8]) -> Lines<'a>
        ensures { result ≡ lines_of 65536 script.now }
    {
        Lines {
            rest: script,
            room: MOST,
        }
    }

    /// Returns the next line without its end, or `None` after the last one. A fault ends the lines: `Truncated` if
    /// this one has no end, `TooMany` if the script is too long.
    pub fn next(&mut self) -> Result<Option<&'a [u8]>, ScriptFault>
        ensures { MatchResult result
            (λ line. MatchOption line (self.old ≡ []) (λ text. self.old ≡ Ok text.now ∷ self.new))
            (λ fault. self.old ≡ Err fault ∷ []) }
    {
        if self.rest.is_empty() {
            return Ok(None);
        }
        let within = if self.rest.len() < self.room {
            self.rest.len()
        } else {
            self.room
        };
        let rest = self.rest;
        let found = rest[..within].iter().position(|b| *b == b'\n');
        match found {
            Some(i) => {
                self.rest = &rest[i + 1..];
                self.room -= i + 1;
                Ok(Some(&rest[..i]))
            }
            None if within < rest.len() => Err(ScriptFault::TooMany),
            None => Err(ScriptFault::Truncated),
        }
    }

    /// Returns whether no byte is left.
    pub fn is_empty(&self) -> bool
        ensures { IsTrue result ↔ (self.now ≡ []) }
    {
        self.rest.is_empty()
    }
}
