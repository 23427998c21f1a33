//! The first word of a line.
ghost use Rattle.std.specs.Prelude.{◌≡◌};
ghost use Rattle.totem_script.specs.Keywords.{return_in, keyword_of};

use crate::script_version::ScriptVersion;

/// The first word of a line.
#[derive(Clone, Copy, Debug, PartialEq, Eq)]
pub enum Keyword {
    Ring,
    Submit,
    Run,
    Drop,
    Repeat,
    Cut,
    Join,
    Timer,
    Crash,
    Return,
    End,
}

/// Returns the keyword `return`, if scripts of this version have it.
fn return_in(version: ScriptVersion) -> Option<Keyword>
    ensures { result ≡ return_in version }
{
    match version {
        ScriptVersion::One => None,
        ScriptVersion::Two => Some(Keyword::Return),
    }
}

impl Keyword {
    /// Returns the keyword that this word is in a script of this version, if it is one.
    pub fn of(version: ScriptVersion, word: &[u8]) -> Option<Keyword>
        ensures { result ≡ keyword_of version word.now }
    {
        if word == b"ring".as_slice() {
            Some(Keyword::Ring)
        } else if word == b"submit".as_slice() {
            Some(Keyword::Submit)
        } else if word == b"run".as_slice() {
            Some(Keyword::Run)
        } else if word == b"drop".as_slice() {
            Some(Keyword::Drop)
        } else if word == b"repeat".as_slice() {
            Some(Keyword::Repeat)
        } else if word == b"cut".as_slice() {
            Some(Keyword::Cut)
        } else if word == b"join".as_slice() {
            Some(Keyword::Join)
        } else if word == b"timer".as_slice() {
            Some(Keyword::Timer)
        } else if word == b"crash".as_slice() {
            Some(Keyword::Crash)
        } else if word == b"return".as_slice() {
            return_in(version)
        } else if word == b"end".as_slice() {
            Some(Keyword::End)
        } else {
            None
        }
    }
}
