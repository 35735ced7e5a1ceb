// Laws of logs.
ghost use Rattle.std.specs.Prelude.{◌≡◌, ◌<◌, [], ◌∷◌, ◌++◌, ℕ, List};
ghost use Rattle.rescue.specs.Log.{log_text, IsLogLine, IsLog, IsAfterLast, IsFirstBadLine};
ghost use Rattle.rescue.specs.declared.line.LogLine.{LogLine};

/// Reading the text of a log gives the log's lines: no other log has that text, and the text has no bad line.
pub fn log_reads_back()
    ensures one_spelling { (sectors : ℕ) (lines others : List LogLine) → sectors < 256
        → IsLog sectors lines → IsLog sectors others → log_text lines ≡ log_text others
        → lines ≡ others }
    ensures understood { (sectors n : ℕ) (lines : List LogLine) → sectors < 256
        → IsLog sectors lines → ¬ (IsFirstBadLine sectors (log_text lines) n) }
{}

/// A log, and a line that may follow it, are a log. So is a list of no lines.
pub fn log_grows()
    ensures none { (sectors : ℕ) → IsLog sectors [] }
    ensures more { (sectors : ℕ) (lines : List LogLine) (line : LogLine) → IsLog sectors lines
        → IsLogLine sectors line → IsAfterLast lines line → IsLog sectors (lines ++ line ∷ []) }
{}
