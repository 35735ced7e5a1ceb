// A READ DATA that begins where the address field of its sector has just passed, for a layer in front of the controller
// that reads all sectors of a track one after the other.
ghost use Rattle.std.specs.Prelude.{◌≡◌, ◌≤◌, ◌/◌, ◌%◌, ℕ, [], length};
ghost use Rattle.fdc_core.specs.Common.{IsSizeCode, IsReading};
ghost use Rattle.fdc_core.specs.Fields.{address_words, heard_words, word_behind, HasMetField, ReadsField};

use crate::controller::Fdc;
use fdc_phases::{Execution, Phase, Reading, SizedKey, Task};
use fdc_stages::ReadStage;
use flop_base::Chrn;
use track_model::{encode_byte, field_crc};

/// The cells of a mark A1, in which one clock cell is lost.
const MARK: u16 = 0x4489;

/// How many words an address field has.
const ADDRESS_WORDS: u16 = 10;

/// The word that records a byte after another.
fn word_behind(before: u8, byte: u8) -> u16
    ensures { result ≡ word_behind before byte }
{
    encode_byte(before % 2 == 1, byte)
}

/// The byte of a CRC that is recorded first.
fn high_byte(check: u16) -> u8
    ensures { result ≡ check / 256 }
{
    (check / 256) as u8
}

/// The byte of a CRC that is recorded last.
fn low_byte(check: u16) -> u8
    ensures { result ≡ check % 256 }
{
    (check % 256) as u8
}

/// The ten words of an address field of this key (IBM System 34).
fn address_words(key: Chrn) -> [u16; 10]
    ensures { result ≡ address_words key }
{
    let Chrn { c, h, r, n } = key;
    let check = field_crc(&[0xA1, 0xA1, 0xA1, 0xFE, c, h, r, n]);
    let high = high_byte(check);
    let low = low_byte(check);
    [
        MARK,
        MARK,
        MARK,
        word_behind(0xA1, 0xFE),
        word_behind(0xFE, c),
        word_behind(c, h),
        word_behind(h, r),
        word_behind(r, n),
        word_behind(n, high),
        word_behind(high, low),
    ]
}

/// The stage of a READ DATA of this key that has heard these words and no index pulse.
fn stage_behind(key: Chrn, words: &[u16]) -> ReadStage
    requires sized { IsSizeCode key.n }
    requires few { length words.now ≤ 10 }
    ensures { IsReading (heard_words words.now) key [] result }
{
    let mut stage = ReadStage::new();
    for word in words {
        stage.hear(key, *word, false);
    }
    stage
}

/// READ DATA once it has heard the address field of its key.
fn reading_field(key: Chrn, last_sector: u8) -> Task
    requires { IsSizeCode key.n }
    ensures { (head_drive : ℕ) → HasMetField (record { head_drive = head_drive; key = key; last_sector = last_sector }) result }
{
    let words = address_words(key);
    Task::Read {
        reading: Reading {
            wanted: SizedKey { key },
            last_sector,
            counted: false,
            stage: stage_behind(key, &words),
        },
    }
}

impl Fdc {
    /// Begins a READ DATA of this sector where its address field has just passed. Its data field is read in the same
    /// turn. The controller stands as if it had begun with that address field, whose last word was the one before.
    pub fn read_field(&mut self, head_drive: u8, key: Chrn, last_sector: u8)
        requires { IsSizeCode key.n }
        ensures { ReadsField (record { head_drive = head_drive; key = key; last_sector = last_sector }) self.old self.new }
    {
        let task = reading_field(key, last_sector);
        self.begin(head_drive, task);
        self.phase = Phase::Execute {
            execution: Execution {
                head_drive,
                steps: ADDRESS_WORDS,
                task,
            },
        };
    }
}
