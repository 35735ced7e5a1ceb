//! Laws over runs of the program's scripts. They say what a format, a copy, an import, an export and a rescue store,
//! and what a verify tells. They also say when these end well, how often they access media past the driver, and which
//! stores they make.
#![tactic(auto)]

mod accesses;
mod copies;
mod copy_ends;
mod copy_runs;
mod ends;
mod exports;
mod format_ends;
mod format_runs;
mod formats;
mod imports;
mod reads;
mod rescue_ends;
mod rescue_logs;
mod rescue_order;
mod rescue_stores;
mod short_tracks;
mod stores;
mod targets;
mod times;
mod verify_ends;
mod verify_runs;

pub use accesses::{copy_accesses, format_accesses, verify_accesses};
pub use copies::copies_disk;
pub use copy_ends::copy_ends_well;
pub use copy_runs::copy_stores_a_copy;
pub use ends::{export_ends_well, import_ends_well};
pub use exports::export_stores_what_was_read;
pub use format_ends::{format_ends_well, formatted_disk_is_readable};
pub use format_runs::format_stores_a_formatted_disk;
pub use formats::{formats_disk, formatted_disk_has_sectors};
pub use imports::import_stores_the_flat_file;
pub use reads::reads_tell_of_disk;
pub use rescue_ends::{further_rescue_ends_well, new_rescue_ends_well};
pub use rescue_logs::rescue_logs_what_is_not_found;
pub use rescue_order::rescue_stores_the_log_last;
pub use rescue_stores::rescue_settles_each_record;
pub use short_tracks::media_have_short_tracks;
pub use stores::{
    a_run_stores_what_it_takes_out, copy_stores_a_disk_alone, exercise_stores_nothing,
    export_stores_a_file_alone, format_stores_a_disk_alone, import_stores_a_disk_alone,
    stores_are_listed, verify_stores_nothing,
};
pub use targets::{
    copied_disk_is_a_target, formatted_disk_is_a_target, imported_disk_is_a_target,
    target_takes_keys,
};
pub use times::standard_disks_take_this_long;
pub use verify_ends::verify_ends_well;
pub use verify_runs::verify_tells_failing_keys;
