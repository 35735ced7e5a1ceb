// How long a command lasts. `ranges` says of a chip at each time what is assumed of numbers here. The bodies are empty:
// the contracts say what follows from what each call does.
ghost use Rattle.std.specs.Prelude.{◌≡◌, ◌<◌, true, List};
ghost use Rattle.laws_chip.specs.Common.{IsInRange, Transfer, ChipState, Obeys, implies, is_size, transfer_sent, verifying, ReadTrack, VerifyCode, Busy, ChipTask};
ghost use Rattle.laws_chip.specs.SectorLasting.{HasByteNumbers, most_steps};
ghost use Rattle.laws_chip.specs.Beginning.{BeginsBehind, IsBegun, IsFreeBehind};
ghost use Rattle.laws_chip.specs.Calls.{AreServed, Call, steps_in};
ghost use Rattle.laws_chip.specs.Lasting.{AreAt, AreTracked, AreVerified, IsVerifying, most_track_steps};
ghost use Rattle.laws_chip.specs.Sound.{ExecutesBehind, IsSound};

/// A READ ID or a FORMAT TRACK that the inner controller executes ends within 65,536 device steps, whatever calls come
/// between. This holds too where READ ID looks which cylinder passes, or stands for a command that this medium can't
/// have. A command of several sectors ends within 256 device steps for an implied seek and 65,536 for each of its
/// sectors.
pub fn each_command_ends()
    ensures single { (task : ChipTask) (calls : List Call) (old new : ChipState) → IsSound old → old.stage ≡ Busy task → ExecutesBehind old.front → AreAt (Busy task) calls old new
        → steps_in calls < 65536 }
    ensures transfer { (first : Transfer) (calls : List Call) (begun new : ChipState) → IsBegun first begun → HasByteNumbers begun.front.stage → IsInRange begun.front.adapter.controller
        → AreServed calls begun new → steps_in calls < most_steps first }
{}

/// A VERIFY that this medium can have begins in the sequencer as the READ DATA of its sectors, if the inner controller
/// is free. It ends as soon as such a READ DATA.
pub fn a_verify_ends()
    ensures begins { (old new : ChipState) → is_size old.order.key.n ≡ true → IsFreeBehind old.front
        → Obeys (VerifyCode true) old new → BeginsBehind (transfer_sent (implies old) (verifying old.order)) new.front }
    ensures verifies { (old new : ChipState) → is_size old.order.key.n ≡ true → IsFreeBehind old.front
        → Obeys (VerifyCode true) old new → IsVerifying new }
    ensures within { (first : Transfer) (calls : List Call) (begun new : ChipState) → BeginsBehind first begun.front → IsVerifying begun → HasByteNumbers begun.front.stage
        → IsInRange begun.front.adapter.controller → AreVerified calls begun new → steps_in calls < most_steps first }
{}

/// A READ TRACK ends within 65,792 device steps for the index, and 131,328 for each of its sectors, including the READ
/// ID before it, whatever calls come between.
pub fn a_read_track_ends()
    ensures { (calls : List Call) (old begun new : ChipState) → is_size old.order.key.n ≡ true → IsFreeBehind old.front → Obeys (ReadTrack true) old begun → IsSound begun → IsInRange begun.front.adapter.controller
        → AreTracked calls begun new → steps_in calls < most_track_steps old.order }
{}
