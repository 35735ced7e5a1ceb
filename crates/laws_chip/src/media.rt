// A command of several sectors and the medium under it. The bodies are empty: the contracts say what follows from what
// each call does.
ghost use Rattle.std.specs.Prelude.{◌≡◌, ◌++◌, ◌∷◌, [], Bool, Some, List};
ghost use Rattle.laws_chip.specs.Common.{drive_at, Results, Read, Write, Transfer, ChipState, StepsChip};
ghost use Rattle.fdc_sequencer.specs.declared.stage.FrontStage.TheVariants as behind;
ghost use Rattle.laws_chip.specs.SectorCalls.{Steps};
ghost use Rattle.laws_chip.specs.Media.{IsReadFrom, Place, StaysIn};
ghost use Rattle.laws_chip.specs.Written.{IsWrittenTo, KeepsIn};
ghost use Rattle.laws_chip.specs.Beginning.{IsBegun, IsServed};
ghost use Rattle.laws_chip.specs.Calls.{AreServed, Call};

/// What a read gives, from its last byte to its results, stands on the medium under its heads, if the medium stays in.
pub fn what_is_read_stands_on_the_medium()
    ensures { (place : Place) (wanted skip : Bool) (first : Transfer) (calls : List Call) (begun last new : ChipState) (served : AreServed calls begun last) (step : StepsChip last new)
        (results : Results) → first.opcode.operation ≡ Read wanted skip → IsBegun first begun → step.between.stage ≡ behind.Telling results
        → (moves : IsServed first calls begun last new served step results) → StaysIn place (moves.all ++ Steps ∷ []) begun.front step.between moves.within
        → IsReadFrom place first moves.moved.history }
{}

/// What a write takes then stands on the medium: of each sector that is over, in order, and of the last one. Nothing
/// else of the medium changes.
pub fn what_is_written_stands_on_the_medium()
    ensures { (place : Place) (deleted : Bool) (first : Transfer) (calls : List Call) (begun last new : ChipState) (served : AreServed calls begun last) (step : StepsChip last new)
        (results : Results) → first.opcode.operation ≡ Write deleted → IsBegun first begun → step.between.stage ≡ behind.Telling results
        → (moves : IsServed first calls begun last new served step results) → KeepsIn place (moves.all ++ Steps ∷ []) begun.front step.between moves.within
        → (drive_at begun.front.adapter place.bay).medium ≡ Some place.disk → IsWrittenTo place deleted first moves.moved.history results step.between }
{}
