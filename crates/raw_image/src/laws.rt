// What follows from the contract of reading in pieces. The bodies are empty.
ghost use Rattle.std.specs.Prelude.{ℕ, List, []};
ghost use Rattle.std.specs.List.{flat_map};
ghost use Rattle.raw_image.specs.Progress.{Progress, IsFed, FeedsAll};

/// However a file is cut into pieces, a reader that took all of them has come as far as the whole file says. If the
/// file ends there, `ImageReader::finish` answers what `read_image` answers on the whole file.
pub fn any_pieces()
    ensures { (pieces : List (List ℕ)) (new last : Progress) → IsFed [] new
        → FeedsAll pieces new last → IsFed (flat_map (λ piece. piece) pieces) last }
{}
