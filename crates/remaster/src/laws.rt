// What is known of the lists of a track.
ghost use Rattle.std.specs.Prelude.{◌≡◌, ℕ, List};
ghost use Rattle.remaster.specs.Common.{Rate};
ghost use Rattle.remaster.specs.declared.looked.LookedField.{LookedField};
ghost use Rattle.remaster.specs.declared.sectors.Sector.{Sector};
ghost use Rattle.remaster.specs.Looked.{AreLooked};
ghost use Rattle.remaster.specs.Sectors.{AreSectors};
ghost use Rattle.remaster.specs.Fit.{IsFitTrack, IsUnfitTrack};

/// A law: a track has only one list of address fields with their looks, and only one list of sectors. A track that is
/// fit is therefore not unfit.
pub fn sectors_are_one(_words: &[u16])
    ensures looked { (a b : List LookedField) → AreLooked _words.now a → AreLooked _words.now b
        → a ≡ b }
    ensures sectors { (a b : List Sector) → AreSectors _words.now a → AreSectors _words.now b → a ≡ b }
    ensures fit { (rate : Rate) (c h : ℕ) → IsFitTrack rate c h _words.now
        → IsUnfitTrack rate c h _words.now → ⊥ }
{}
