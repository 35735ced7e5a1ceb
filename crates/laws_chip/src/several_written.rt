// What is known of the medium under a command of several sectors that writes. The bodies are empty.
ghost use Rattle.std.specs.Prelude.{◌≡◌, Bool, Some, List};
ghost use Rattle.laws_chip.specs.Common.{drive_at, Results, Front, Write, Telling, Transfer};
ghost use Rattle.laws_chip.specs.SectorCalls.{AreWithin, Begins, Call, Served};
ghost use Rattle.laws_chip.specs.Media.{Place};
ghost use Rattle.laws_chip.specs.Written.{IsWrittenTo, KeepsIn};

/// What a write takes, from its beginning to its results, stands on the medium, if the medium stays in. This holds of
/// each sector that is over, in order, and of the last one. Each stands under its head and after an address field of
/// its key. Nothing else of the medium changes.
pub fn what_is_written_stands_on_the_medium()
    ensures { (place : Place) (deleted : Bool) (first : Transfer) (start begun end : Front) (calls : List Call) (results : Results)
        → first.opcode.operation ≡ Write deleted → Begins first start begun
        → (within : AreWithin calls begun end) → end.stage ≡ Telling results → KeepsIn place calls begun end within
        → (drive_at begun.adapter place.bay).medium ≡ Some place.disk
        → (served : Served first calls begun end within results) → IsWrittenTo place deleted first served.history results end }
{}
