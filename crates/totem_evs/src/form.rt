//! The form of a text of records: a first line with its version, records in ascending order of their processes, and a last line.
ghost use Rattle.std.specs.Prelude.{◌≡◌};
ghost use Rattle.totem_evs.specs.Heads.{Words};
ghost use Rattle.totem_evs.specs.RunGrammar.{run_words};

/// A kind of text that is made of records, given by the words of its lines.
pub trait Form {
    /// The words of its lines.
    ghost words: { Words };

    /// Returns what its first line has before the version.
    fn title() -> &'static [u8]
        ensures { result.now ≡ words.title };

    /// Returns whether it has a third version.
    fn third() -> bool
        ensures { result ≡ words.third };

    /// Returns the first letter of a record.
    fn letter() -> u8
        ensures { result ≡ words.letter };

    /// Returns what is between that letter and the process of a record.
    fn word() -> &'static [u8]
        ensures { result.now ≡ words.word };

    /// Returns the byte after the process of a record.
    fn behind() -> u8
        ensures { result ≡ words.behind };
}

/// The text of runs, whose records are logs.
pub struct RunText;

impl Form for RunText {
    ghost words = { run_words };

    fn title() -> &'static [u8] {
        b"totem-run "
    }

    fn third() -> bool {
        true
    }

    fn letter() -> u8 {
        b'l'
    }

    fn word() -> &'static [u8] {
        b"og "
    }

    fn behind() -> u8 {
        b'\n'
    }
}
