//! A text split at a byte: lines at line ends, words at spaces.
ghost use Rattle.std.specs.Prelude.{◌≡◌, [], ◌∷◌, MatchOption, IsTrue, ◌↔◌};
ghost use Rattle.totem_script.specs.Parts.{parts};

use std::marker::Model;

/// An iterator over the parts of a text that one byte separates. There is one part more than separators.
#[derive(Debug, Drop)]
pub struct Parts<'a> {
    /// What follows the last separator that was found, or `None` after the last part.
    rest: Option<&'a [u8]>,
    at: u8,
}

impl<'a> Model for Parts<'a> {
    ghost use Rattle.std.specs.Prelude.{ℕ, List};
    ghost use Rattle.totem_script.specs.Parts.{parts_left};

    ghost Value = { List (List ℕ) };

    ghost view = { λ p. parts_left p.at p.rest };
}

impl<'a> Parts<'a> {
    /// Splits this text at each byte `at`.
    pub fn new(text: &'a [u8], at: u8) -> Parts<'a>
        ensures { result ≡ parts at text.now }
    {
        Parts {
            rest: Some(text),
            at,
        }
    }

    /// Returns the next part, if one is left.
    pub fn next(&mut self) -> Option<&'a [u8]>
        ensures { MatchOption result ((self.old ≡ []) × (self.new ≡ [])) (λ p. self.old ≡ p.now ∷ self.new) }
    {
        let Some(rest) = self.rest else {
            return None;
        };
        let at = self.at;
        match rest.iter().position(|b| *b == at) {
            Some(i) => {
                self.rest = Some(&rest[i + 1..]);
                Some(&rest[..i])
            }
            None => {
                self.rest = None;
                Some(rest)
            }
        }
    }

    /// Returns whether no part is left.
    pub fn is_empty(&self) -> bool
        ensures { IsTrue result ↔ (self.now ≡ []) }
    {
        self.rest.is_none()
    }
}
