//! Which lines a text without lives can write.
ghost use Rattle.std.specs.Prelude.{◌↔◌, IsTrue, IfSome, IfNone};
ghost use Rattle.totem_certificate.specs.CertLives.{HasFirstLife, IsFirstVersion, IsUnwritten};
ghost use Rattle.totem_certificate.specs.Keeping.{IsCertificate, IsCertificateIn};

use crate::line::Line;
use totem_names::Version;

fn has_first_life(line: &Line) -> bool
    ensures { IsTrue result ↔ HasFirstLife line.now }
{
    line.proc.life() == 1
}

/// Returns the index of the first line that a text of this version cannot write, or `None` if it can write them all.
#[tactic(auto, using(crate::proofs::WrittenLives::with_lives))]
pub fn first_unwritten(version: Version, lines: &[Line]) -> Option<usize>
    requires { IsCertificate lines.now }
    ensures some { IfSome result (IsUnwritten version lines.now) }
    ensures none { IfNone result (IsCertificateIn version lines.now) }
{
    if version.lives() {
        return None;
    }
    for (at, line) in lines.iter().enumerate() {
        if !has_first_life(line) {
            return Some(at);
        }
    }
    None
}

/// Returns the first version whose texts can write these lines.
pub fn first_version(lines: &[Line]) -> Version
    ensures { IsFirstVersion result lines.now }
{
    if lines.iter().all(has_first_life) {
        return Version::One;
    }
    Version::Two
}
