// What follows from the calls. The bodies are empty.
ghost use Rattle.std.specs.Prelude.{◌≡◌, ◌⊎◌, ℕ, List};
ghost use Rattle.telwyddus_c.specs.Common.{ControllerValue};
ghost use Rattle.telwyddus_c.specs.Bare.{BareBytes, IsBared, RestoresBare};

/// What was saved without its media, and is restored onto the same media, is the controller that was saved. Restoring
/// it is never refused, unless memory is out.
#[tactic(auto, using(crate::proofs::Bared::comes_back))]
pub fn a_bare_state_comes_back()
    ensures { (controller new : ControllerValue) (bytes : List ℕ) (code : ℕ) → BareBytes (IsBared controller) bytes
        → RestoresBare bytes code controller new → (new ≡ controller) × ((code ≡ 0) ⊎ (code ≡ 3)) }
{}
