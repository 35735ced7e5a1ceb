// What is known of a command of several sectors. The bodies are empty: the contracts say what follows from what each
// call does.
ghost use Rattle.std.specs.Prelude.{◌≡◌, ℕ, Bool, Option, true, List, [], ◌++◌, length, replicate};
ghost use Rattle.laws_chip.specs.Common.{Front, KeepsFront, TakesFront, GivesCommand, GivesFront, GivesTransfer, WritesFront, is_ready, results_taken, told_front, RunsFront, StepsFront, Chrn, IsSizeCode, content_size, FindsSector, Past, resets, Operation, Read, Command, Results, Through, Telling, Transfer};
ghost use Rattle.laws_chip.specs.SectorCalls.{AreWithin, Begins, Behind, Call, Gather, Served, Steps, passed_in_all};
ghost use Rattle.laws_chip.specs.Outcomes.{HasField, PassedWhole, PassesOfSector, ResultsSay};
ghost use Rattle.laws_chip.specs.Serving.{History, IsMoved, KeepsServing, Part, Serves, ServesCounted, ServesStep, ServesUnless, BeginsServing, has_results, history_given, history_taken, passed_in, passed_out};
ghost use Rattle.laws_chip.specs.Media.{IsReadFrom, Place, StaysIn};

/// A command that is given is served from then on, or refused. It goes on through each call, and while it is served no
/// other command can be given. It is over only where its results are taken or the controller is reset. It is over too
/// where an implied seek ends while SPECIFY's ND is set, which refuses the first sector.
pub fn a_served_command_goes_on()
    ensures steps { (old new : Front) (step : StepsFront old new) → ServesStep old new step }
    ensures takes { (old : Front) (byte : Option ℕ) (new : Front) → TakesFront old byte new → KeepsServing (passed_out byte) (history_taken old.stage byte) old new }
    ensures gives { (byte : ℕ) (old : Front) (was : Bool) (new : Front) → GivesFront byte old was new → KeepsServing (passed_in was byte) (history_given old.stage byte was) old new }
    ensures counts { (old new : Front) → new ≡ told_front old → ServesCounted old new }
    ensures ends { (old new : Front) → new ≡ results_taken old → ServesUnless (has_results old.stage) old new }
    ensures writes { (port value : ℕ) (old new : Front) → WritesFront port value old new → ServesUnless (resets port value) old new }
    ensures changes { (old new : Front) → KeepsFront old new → KeepsServing [] (λ history. history) old new }
    ensures commands { (command : Command) (old new : Front) → GivesCommand command old new → KeepsServing [] (λ history. history) old new }
    ensures transfers { (transfer : Transfer) (old new : Front) → GivesTransfer transfer old new → KeepsServing [] (λ history. history) old new }
    ensures begins { (first : Transfer) (old new : Front) → (first.seeks ≡ true → IsSizeCode first.key.n) → is_ready old ≡ true → GivesTransfer first old new → BeginsServing first new }
{}

/// A run is as many device steps, and calls after calls are calls.
pub fn a_run_is_its_steps()
    ensures steps { (most : ℕ) (old : Front) (n : ℕ) (new : Front) → RunsFront most old n new → (new.stage ≡ Through → ⊥) → AreWithin (replicate n Steps) old new }
    ensures both { (first second : List Call) (old between new : Front) → AreWithin first old between → AreWithin second between new → AreWithin (first ++ second) old new }
{}

/// What the results of a command that is served say of its sectors.
pub fn results_say()
    ensures { (first : Transfer) (history : History) (front : Front) (results : Results) → Serves first history front
        → front.stage ≡ Telling results → ResultsSay first history results }
{}

/// What passed of a sector that is over is the whole content of a field, or nothing of one that was passed over. If as
/// many bytes of the last sector passed as its size, they are its content too.
pub fn sectors_are_whole()
    ensures parts { (operation : Operation) (part : Part) → IsMoved operation part → PassedWhole operation part }
    ensures last { (past : Past) (key : Chrn) (marked : Bool) (given : List ℕ) → FindsSector past key given marked
        → length given ≡ content_size key.n → HasField past key marked given }
{}

/// At each time whatever passed of the sector under way is of that sector.
pub fn bytes_are_of_the_sector()
    ensures { (first : Transfer) (history : History) (front : Front) → Serves first history front → PassesOfSector first history }
{}

/// The bytes that pass in calls one after the other are those that the served command moves, in this order.
pub fn bytes_pass_in_order()
    ensures { (calls : List Call) (first : Transfer) (history : History) (old new : Front) (within : AreWithin calls old new) → Serves first history old
        → Behind first history calls old new within }
{}

/// What passes between the beginning of a command and its results are the bytes of its sectors, in order, and the
/// results say how the command ended.
pub fn a_command_moves_its_sectors()
    ensures { (first : Transfer) (start begun end : Front) (calls : List Call) (results : Results)
        → Begins first start begun → (within : AreWithin calls begun end) → end.stage ≡ Telling results → Served first calls begun end within results }
{}

/// What a read gives, from its beginning to its results, stands on the medium under its heads, if the medium stays in.
pub fn what_is_read_stands_on_the_medium()
    ensures { (place : Place) (wanted skip : Bool) (first : Transfer) (start begun end : Front) (calls : List Call) (results : Results)
        → first.opcode.operation ≡ Read wanted skip → Begins first start begun → (within : AreWithin calls begun end) → end.stage ≡ Telling results → StaysIn place calls begun end within
        → (served : Served first calls begun end within results) → IsReadFrom place first served.history }
{}

/// Once the terminal count was heard no byte passes, and no further sector is moved whole.
pub fn no_byte_passes_behind_the_count()
    ensures { (first : Transfer) (was history now : History) (start end : Front) (calls : List Call) → Serves first was start
        → (within : AreWithin calls (told_front start) end) → Gather calls (told_front start) end within history now
        → (passed_in_all calls ≡ []) × (now.parts ≡ history.parts) }
{}
