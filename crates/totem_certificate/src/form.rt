//! The words of a certificate's text.
ghost use Rattle.std.specs.Prelude.{◌≡◌};
ghost use Rattle.totem_certificate.specs.CertGrammar.{cert_words};

use totem_evs::Form;

/// The text of certificates, whose records are lines of numbers.
pub struct CertText;

impl Form for CertText {
    ghost words = { cert_words };

    fn title() -> &'static [u8] {
        b"totem-cert "
    }

    fn third() -> bool {
        false
    }

    fn letter() -> u8 {
        b'p'
    }

    fn word() -> &'static [u8] {
        b"os "
    }

    fn behind() -> u8 {
        b' '
    }
}
