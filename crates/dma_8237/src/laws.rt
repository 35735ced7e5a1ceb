// What the registers do over a whole run of transfers, and once they are set up. The bodies are empty.
ghost use Rattle.std.specs.Prelude.{◌≡◌, ◌⊎◌, ℕ, ◌+◌, ◌^◌, ◌<◌, ◌≤◌, false};
ghost use Rattle.dma_8237.specs.Channel.{Channel, after_transfers, has_bit, moved_by, ran_out};
ghost use Rattle.dma_8237.specs.SetUp.{IsSetUp, set_up};

/// A count of `n` is `n + 1` transfers: the channel runs out with the last of them, and not before.
pub fn count_is_transfers_less_one()
    ensures on_the_way { (c : Channel) (k : ℕ) → c.address < 2 ^ 16 → k ≤ c.count
        → after_transfers k c ≡ moved_by k c }
    ensures at_the_end { (c : Channel) → c.address < 2 ^ 16
        → after_transfers (c.count + 1) c ≡ ran_out c }
{}

/// A driver's nine writes set up a channel that isn't disabled, for bytes to memory (mode 46) or from memory (mode 4A).
pub fn channel_is_set()
    ensures { (mode address left : ℕ) (c : Channel) → (mode ≡ 0x46) ⊎ (mode ≡ 0x4A) → has_bit c.command 2 ≡ false → address < 2 ^ 20 → left < 2 ^ 16
        → IsSetUp mode address left (set_up mode address left c) }
{}
