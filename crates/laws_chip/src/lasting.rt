// Each command ends, whatever the host does. The bodies are empty: the contracts say what follows from what each call
// does.
ghost use Rattle.std.specs.Prelude.{◌≡◌, ◌+◌, ◌<◌, ◌≤◌, ℕ, Bool, List};
ghost use Rattle.laws_chip.specs.Common.{ChipState};
ghost use Rattle.fdc_chip.specs.declared.code.ChipOpcode.TheVariants.{FormatTrack, ReadId, ReadTrack, Transfer, Verify};
ghost use Rattle.laws_chip.specs.Beginning.{completed};
ghost use Rattle.laws_chip.specs.Bounds.{AreWithoutReset, AreWorking, EndsAmong, IsGiven, most_steps_of};
ghost use Rattle.laws_chip.specs.Calls.{Call, steps_in};

/// A command that a sound chip is given, and that isn't refused, ends within its bound, whatever calls come after its
/// last byte. READ ID and FORMAT TRACK take at most 65,536 device steps. READ DATA, WRITE DATA and VERIFY take 256 for
/// an implied seek and 65,536 for each sector. 65,536 more look which cylinder passes, if a sector isn't found. READ
/// TRACK takes 65,792 and 131,328 for each sector. To these come the device steps for which a held command waits for
/// heads.
pub fn a_command_that_comes_ends()
    ensures read_id { (wait : ℕ) (mfm : Bool) (byte : ℕ) (calls : List Call) (old begun new : ChipState) → IsGiven wait (ReadId mfm) byte old begun → AreWorking calls begun new
        → steps_in calls < wait + most_steps_of (ReadId mfm) (completed byte old) }
    ensures format { (wait : ℕ) (mfm : Bool) (byte : ℕ) (calls : List Call) (old begun new : ChipState) → IsGiven wait (FormatTrack mfm) byte old begun → AreWorking calls begun new
        → steps_in calls < wait + most_steps_of (FormatTrack mfm) (completed byte old) }
    ensures transfer { (wait : ℕ) (mfm : Bool) (byte : ℕ) (calls : List Call) (old begun new : ChipState) → IsGiven wait (Transfer mfm) byte old begun → AreWorking calls begun new
        → steps_in calls < wait + most_steps_of (Transfer mfm) (completed byte old) }
    ensures verify { (wait : ℕ) (mfm : Bool) (byte : ℕ) (calls : List Call) (old begun new : ChipState) → IsGiven wait (Verify mfm) byte old begun → AreWorking calls begun new
        → steps_in calls < wait + most_steps_of (Verify mfm) (completed byte old) }
    ensures read_track { (wait : ℕ) (mfm : Bool) (byte : ℕ) (calls : List Call) (old begun new : ChipState) → IsGiven wait (ReadTrack mfm) byte old begun → AreWorking calls begun new
        → steps_in calls < wait + most_steps_of (ReadTrack mfm) (completed byte old) }
{}

/// After as many device steps the command is over, if no reset comes: results are told with INT, as `no_command_is_silent`
/// says.
pub fn a_command_that_comes_tells()
    ensures read_id { (wait : ℕ) (mfm : Bool) (byte : ℕ) (calls : List Call) (old begun new : ChipState) → IsGiven wait (ReadId mfm) byte old begun → (are : AreWithoutReset calls begun new)
        → wait + most_steps_of (ReadId mfm) (completed byte old) ≤ steps_in calls → EndsAmong calls begun new are }
    ensures format { (wait : ℕ) (mfm : Bool) (byte : ℕ) (calls : List Call) (old begun new : ChipState) → IsGiven wait (FormatTrack mfm) byte old begun → (are : AreWithoutReset calls begun new)
        → wait + most_steps_of (FormatTrack mfm) (completed byte old) ≤ steps_in calls → EndsAmong calls begun new are }
    ensures transfer { (wait : ℕ) (mfm : Bool) (byte : ℕ) (calls : List Call) (old begun new : ChipState) → IsGiven wait (Transfer mfm) byte old begun → (are : AreWithoutReset calls begun new)
        → wait + most_steps_of (Transfer mfm) (completed byte old) ≤ steps_in calls → EndsAmong calls begun new are }
    ensures verify { (wait : ℕ) (mfm : Bool) (byte : ℕ) (calls : List Call) (old begun new : ChipState) → IsGiven wait (Verify mfm) byte old begun → (are : AreWithoutReset calls begun new)
        → wait + most_steps_of (Verify mfm) (completed byte old) ≤ steps_in calls → EndsAmong calls begun new are }
    ensures read_track { (wait : ℕ) (mfm : Bool) (byte : ℕ) (calls : List Call) (old begun new : ChipState) → IsGiven wait (ReadTrack mfm) byte old begun → (are : AreWithoutReset calls begun new)
        → wait + most_steps_of (ReadTrack mfm) (completed byte old) ≤ steps_in calls → EndsAmong calls begun new are }
{}
