// INT from call to call: whoever looks at INT after each call sees each edge. A run of device steps stops at the first
// edge. The bodies are empty: the contracts say what follows from what each call does.
ghost use Rattle.std.specs.Prelude.{◌≡◌, ℕ, true, false, Some};
ghost use Rattle.laws_chip.specs.Common.{Results, ChipState, KeepsRest, interrupts_chip, Opens, sensing, sensed, ReadsChip, byte_told, told_chip, is_by_port, ChipTask};
ghost use Rattle.fdc_chip.specs.declared.answer.ChipAnswer.TheVariants as answer;
ghost use Rattle.laws_chip.specs.Calls.{Call, Does};
ghost use Rattle.laws_chip.specs.Edges.{EndsAnswer, is_of_channel};

/// A byte that passes by the channel leaves INT as it is, and with DMA so does the terminal count.
pub fn the_channel_leaves_int()
    ensures bytes { (made : Call) (old new : ChipState) → is_of_channel made ≡ true → Does made old new → interrupts_chip new ≡ interrupts_chip old }
    ensures count { (chip : ChipState) → is_by_port chip.settings ≡ false → interrupts_chip (told_chip chip) ≡ interrupts_chip chip }
{}

/// A read of a port lets INT rise only with the last byte of an answer, if a seek or a poll has ended meanwhile in the
/// inner controller.
pub fn a_read_raises_int_with_an_answer()
    ensures { (port value : ℕ) (old new : ChipState) → ReadsChip port old value new → interrupts_chip old ≡ false → interrupts_chip new ≡ true → EndsAnswer old new }
{}

/// After each call that takes an interrupt INT is down: the first result byte of a data command is read; SENSE
/// INTERRUPT finds a result; with DMA, a data command begins, whatever the inner controller is given for it. So INT can't
/// have risen again unseen.
pub fn a_taken_interrupt_is_seen()
    ensures results { (results : Results) (old : ChipState) → interrupts_chip (byte_told (answer.Results results) 0 old) ≡ false }
    ensures sense { (status cylinder : ℕ) (old : ChipState) → sensed old.interrupts ≡ Some (status, cylinder) → interrupts_chip (sensing old) ≡ false }
    ensures begins { (task : ChipTask) (old set new : ChipState) → is_by_port old.settings ≡ false → Opens task old set → KeepsRest set new → interrupts_chip new ≡ false }
{}
