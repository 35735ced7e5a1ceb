// Writing a log.
ghost use Rattle.std.specs.Prelude.{◌≡◌, IfOk};
ghost use Rattle.rescue.specs.Log.{log_text};

use crate::LogLine;
use flop_base::NoMemory;
use std::alloc::Global;

/// The text of a log with these lines.
pub fn write_log(alloc: Global, lines: &[LogLine]) -> Result<Vec<u8>, NoMemory>
    ensures { IfOk result (λ bytes. bytes.items ≡ log_text lines.now) }
{
    let mut bytes = Vec::new(alloc);
    for line in lines {
        let text = format!(in alloc; "{line}\n")?;
        bytes.extend_from_slice(text.as_bytes())?;
    }
    Ok(bytes)
}
