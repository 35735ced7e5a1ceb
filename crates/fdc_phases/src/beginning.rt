// The data commands as they begin.
ghost use Rattle.std.specs.Prelude.{ℕ};
ghost use Rattle.fdc_phases.specs.Common.{IsSizeCode};
ghost use Rattle.fdc_phases.specs.Commands.{WaitsAtFirst, IsReadingId, IsReadingData, IsWritingData, IsFormattingTrack};

use crate::phases::Task;
use crate::sized_key::SizedKey;
use crate::transfers::{Formatting, Reading, Writing};
use fdc_stages::{FormatStage, ReadStage, Search, WriteStage};
use flop_base::Chrn;

/// READ ID as it begins.
pub fn reading_id() -> Task
    ensures is { (head_drive : ℕ) → IsReadingId head_drive result }
    ensures waits { WaitsAtFirst result }
{
    Task::ReadId {
        search: Search::new(),
    }
}

/// READ DATA as it begins. `last_sector` is EOT, the number of the cylinder's last sector.
pub fn reading_data(key: Chrn, last_sector: u8) -> Task
    requires { IsSizeCode key.n }
    ensures is { (head_drive : ℕ)
        → IsReadingData (record { head_drive = head_drive; key = key; last_sector = last_sector }) result }
    ensures waits { WaitsAtFirst result }
{
    Task::Read {
        reading: Reading {
            wanted: SizedKey { key },
            last_sector,
            counted: false,
            stage: ReadStage::new(),
        },
    }
}

/// WRITE DATA as it begins, or WRITE DELETED. `last_sector` is EOT.
pub fn writing_data(key: Chrn, last_sector: u8, deleted: bool) -> Task
    requires { IsSizeCode key.n }
    ensures is { (head_drive : ℕ)
        → IsWritingData (record { head_drive = head_drive; key = key; last_sector = last_sector }) deleted result }
    ensures waits { WaitsAtFirst result }
{
    Task::Write {
        writing: Writing {
            wanted: SizedKey { key },
            deleted,
            last_sector,
            counted: false,
            stage: WriteStage::new(),
        },
    }
}

/// FORMAT TRACK as it begins: so many sectors of size code `n`, with this gap and fill byte.
pub fn formatting_track(n: u8, sectors: u8, gap3: u8, fill: u8) -> Task
    requires { IsSizeCode n }
    ensures is { (head_drive : ℕ)
        → IsFormattingTrack head_drive (record { n = n; sectors = sectors; gap3 = gap3; fill = fill }) result }
    ensures waits { WaitsAtFirst result }
{
    Task::Format {
        formatting: Formatting {
            counted: false,
            stage: FormatStage::new(n, sectors, gap3, fill),
        },
    }
}
