// A host that serves each request in time. The bodies are empty: the contracts say what follows from what each call
// does.
ghost use Rattle.std.specs.Prelude.{◌≡◌, true, List, bit_and};
ghost use Rattle.fdc_registers.specs.St1.{overrun};
ghost use Rattle.laws_chip.specs.Common.{Results, asks_outside, Transfer, ChipState, asks_chip, interrupts_chip, passes_by_channel, passes_by_port, StepsChip};
ghost use Rattle.fdc_sequencer.specs.declared.stage.FrontStage.TheVariants as behind;
ghost use Rattle.laws_chip.specs.Beginning.{IsBegun};
ghost use Rattle.laws_chip.specs.Calls.{Call};
ghost use Rattle.laws_chip.specs.InTime.{AreInTime, IsPrompt};
ghost use Rattle.laws_chip.specs.Sound.{IsSound};

/// Suppose that a host makes a device step only while no byte is asked for and DOR selects one of the two drives. It
/// thus takes or gives each byte before the next step. Then it never gets OR in a transfer, however the FIFO is set. By
/// the channel a byte is asked for while DRQ is up, and by the data port while INT is up.
pub fn a_host_in_time_gets_no_overrun()
    ensures channel { (chip : ChipState) → passes_by_channel chip ≡ true → asks_chip chip ≡ asks_outside chip.front }
    ensures port { (chip : ChipState) → passes_by_port chip ≡ true → chip.gated ≡ true → interrupts_chip chip ≡ asks_outside chip.front }
    ensures calm { (first : Transfer) (calls : List Call) (begun last new : ChipState) (step : StepsChip last new) (results : Results) → IsSound begun → IsBegun first begun
        → AreInTime calls begun last → IsPrompt last → step.between.stage ≡ behind.Telling results → bit_and results.st1.0 overrun ≡ 0 }
{}
