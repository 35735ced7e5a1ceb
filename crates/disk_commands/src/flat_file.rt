// Flat files on a shelf.
ghost use Rattle.std.specs.Prelude.{◌≡◌};
ghost use Rattle.disk_commands.specs.Common.{sectors_at, IsDensity};
ghost use Rattle.disk_commands.specs.FlatFiles.{StopsFor};
ghost use Rattle.disk_commands.specs.FlatLoads.{LoadsFlat};

use commands::AnyRun;
use flop_base::{LoadError, Name, Rate};
use sector_map::flat::check;
use sector_model::Stop;

/// The most bytes of a flat file: 80 cylinders of 2 heads with 18 records.
const MOST_FLAT_BYTES: usize = 1_474_560;

/// A flat file that was loaded.
#[derive(Drop)]
pub(crate) struct FlatFile {
    pub bytes: Vec<u8>,
    /// The rate of the disk that has these sectors.
    pub rate: Rate,
}

/// Loads the flat file of this name. It has 737,280 bytes for a disk at 250 kbit/s, and 1,474,560 for one at 500
/// kbit/s.
pub(crate) fn load_flat<R: AnyRun>(run: &mut R, name: Name) -> Result<FlatFile, Stop>
    ensures { LoadsFlat R.hand name run.old result run.new }
{
    let bytes = match run.load(name.as_str(), MOST_FLAT_BYTES) {
        Ok(bytes) => bytes,
        Err(error) => return Err(stop_at_load(name, error)),
    };
    match check(&bytes) {
        Ok(sectors) => Ok(FlatFile {
            bytes,
            rate: rate_of(sectors),
        }),
        Err(error) => Err(Stop::BadImage { name, error }),
    }
}

/// The rate of a disk with this many sectors on each track.
fn rate_of(sectors: u8) -> Rate
    requires { IsDensity sectors }
    ensures { sectors_at result ≡ sectors }
{
    if sectors == 9 { Rate::R250 } else { Rate::R500 }
}

/// What ends the command if a load is refused.
fn stop_at_load(name: Name, error: LoadError) -> Stop
    ensures { StopsFor name error result }
{
    match error {
        LoadError::Absent => Stop::Absent { name },
        LoadError::TooLong => Stop::TooLong {
            name,
            most: MOST_FLAT_BYTES,
        },
        LoadError::Failed => Stop::FileFault,
        LoadError::NoMemory => Stop::NoMemory,
    }
}
