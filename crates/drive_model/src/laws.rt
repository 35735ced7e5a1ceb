// What follows for every drive.
ghost use Rattle.std.specs.Prelude.{◌≡◌, ℕ, true};
ghost use Rattle.drive_model.specs.Drive.{DriveState, Writes, is_protected};

/// No write changes a protected medium, on whatever drive.
pub fn protected_medium_stays()
    ensures { (old new : DriveState) (head word : ℕ) → is_protected old.medium ≡ true
        → Writes head word old new → new.medium ≡ old.medium }
{}
