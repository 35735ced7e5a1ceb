// The sequence of numbers from which a workload is drawn. It is a linear congruence modulo 2^31.
ghost use Rattle.std.specs.Prelude.{◌≡◌, ◌%◌};
ghost use Rattle.disk_commands.specs.Workload.{next_number, drawn, number_after, drawn_key};

use flop_base::Chrn;
use flop_base::standard::SIZE_CODE;

/// Draws numbers, each of them from the one before.
#[derive(Clone, Copy)]
pub(crate) struct Draws {
    pub number: u32,
}

/// What five draws request.
#[derive(Clone, Copy)]
pub(crate) struct DrawnWork {
    /// 0 is a write, 3 is a write that marks its field as deleted, and 1 and 2 are reads.
    pub kind: u32,
    pub key: Chrn,
    /// The byte that a write writes.
    pub byte: u8,
}

impl Draws {
    /// The next draw, below 65,536.
    fn draw(&mut self) -> u32
        ensures number { self.new.number ≡ next_number self.old.number }
        ensures value { result ≡ drawn self.new.number }
    {
        let next = (self.number as u64 * 1_103_515_245 + 12_345) % 2_147_483_648;
        self.number = next as u32;
        self.number / 65_536
    }

    /// The next five draws: kind, cylinder, head, record and byte.
    #[tactic(auto, unfolding(crate::specs::Workload::number_after))]
    pub fn work(&mut self) -> DrawnWork
        ensures number { self.new.number ≡ number_after 5 self.old.number }
        ensures kind { result.kind ≡ drawn (number_after 1 self.old.number) % 4 }
        ensures key { result.key ≡ drawn_key (drawn (number_after 2 self.old.number))
            (drawn (number_after 3 self.old.number)) (drawn (number_after 4 self.old.number)) }
        ensures byte { result.byte ≡ drawn (number_after 5 self.old.number) % 256 }
    {
        let kind = self.draw() % 4;
        let c = (self.draw() % 4) as u8;
        let h = (self.draw() % 2) as u8;
        let r = (1 + self.draw() % 20) as u8;
        let byte = (self.draw() % 256) as u8;
        let n = SIZE_CODE;
        let key = Chrn { c, h, r, n };
        DrawnWork { kind, key, byte }
    }
}
