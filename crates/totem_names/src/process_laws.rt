//! Laws of processes of a run, of places, and of services. A parser and a spelling fit each other: what is spelled is read, and what
//! is read is spelled so. Processes are ordered as their ranks are.
ghost use Rattle.std.specs.Prelude.{◌≡◌, ◌↔◌, ◌<◌, ℕ, false};
ghost use Rattle.totem_names.specs.declared.version.Version.{Version};
ghost use Rattle.totem_names.specs.Orders.{IsStrictOrder};
ghost use Rattle.totem_names.specs.Processes.{writes_lives, process_to, process_text, IsProcessIn, place_at, place_text_in, IsPlaceIn};
ghost use Rattle.totem_names.specs.Ranks.{life_of, LifeBelow};
ghost use Rattle.totem_names.specs.Services.{service_at, SpellsAlone};
ghost use Rattle.totem_names.specs.Spelling.{Spells};
ghost use Rattle.totem_names.specs.Texts.{service_text};

use crate::life::Proc;
use crate::place::Place;
use crate::version::Version;

/// Services have one spelling.
#[tactic(auto, using(crate::proofs::ServiceSpelling::service_spells))]
pub fn service_spelling()
    ensures { SpellsAlone service_at service_text }
{}

/// In texts of one version each process of a run has one spelling.
#[tactic(auto, using(crate::proofs::Lives::process_spells))]
pub fn life_spelling()
    ensures { (version : Version) → Spells (process_to version) (process_text version) (IsProcessIn version) }
{}

/// In texts of one version places have one spelling.
#[tactic(auto, using(crate::proofs::Lives::place_spells))]
pub fn place_spelling()
    ensures { (version : Version) → Spells (place_at version) (place_text_in version) (IsPlaceIn version) }
{}

/// Each process of a run has a spelling where lives are written, and each first life has one everywhere.
pub fn life_fits(version: Version, process: Proc)
    ensures { (writes_lives version ≡ false → life_of process ≡ 1) → IsProcessIn version process }
{}

/// Each place has a spelling where lives are written, and each place of a first life has one everywhere.
pub fn place_fits(version: Version, place: &Place)
    ensures { (writes_lives version ≡ false → life_of place.now.proc ≡ 1) → IsPlaceIn version place.now }
{
    let _entry = place.at;
    life_fits(version, place.proc);
}

/// Processes of a run are ordered strictly and totally, as their ranks are.
#[tactic(auto, using(crate::proofs::Lives::life_strict, crate::proofs::Lives::below_is_less))]
pub fn life_order()
    ensures strict { IsStrictOrder LifeBelow }
    ensures ranks { (a b : ℕ) → LifeBelow a b ↔ (a < b) }
{}
