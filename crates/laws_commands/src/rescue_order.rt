// What a rescue stores, and in which order.
ghost use Rattle.std.specs.Prelude.{List};
ghost use Rattle.laws_commands.specs.Common.{Status, Taken, World, Rescues};
ghost use Rattle.laws_commands.specs.Rescued.{log_of};
ghost use Rattle.laws_commands.specs.Stores.{StoresDiskThenLog};

/// A law: however a rescue ends, it made a first part of two stores: that of the other diskette, and then that of the
/// new log. If the log couldn't be stored, the diskette is therefore the new one and the log is as it was, so that the
/// next run asks for the same records.
pub fn rescue_stores_the_log_last(_from: &str, _to: &str, _log: &str)
    ensures { (old new : World) (course : List Taken) (ended : Status)
        → Rescues _from.now _to.now _log.now old course new ended
        → StoresDiskThenLog _to.now _log.now (log_of course) old.files new.files }
{}
