//! Laws over the program on a machine: what each subcommand (form) stores and prints, by the files, the report and the
//! boards before and after it.
//!
//! One law is over plays of a batch job where nothing is left to go wrong. What these answer is settled by the job, the
//! files and the number of spare drives alone.
#![tactic(auto)]

mod accesses;
mod archive;
mod copy;
mod counts;
mod determined;
mod ends;
mod fitting;
mod flat;
mod format;
mod guarded;
mod in_turn;
mod lasting;
mod play;
mod ports;
mod rescued;
mod seeks;
mod settled;
mod status;
mod steps;
mod stores;
mod verify;
mod words;

pub use accesses::{accesses_guard_media, commands_end_in_time};
pub use archive::{disk_laid_anew, disk_of_an_imd, imd_of_a_disk, survey_of_a_disk};
pub use copy::{copied_disk_is_a_target, copy_of_a_disk};
pub use counts::{
    counts_are_tied, each_form_lasts, each_form_makes_few_port_accesses, each_form_sends_few,
    job_accesses,
};
pub use determined::job_answers_are_determined;
pub use ends::{
    copy_ends_well, export_ends_well, format_ends_well, formatdd_ends_well,
    further_rescue_ends_well, import_ends_well, new_rescue_ends_well, verify_ends_well,
};
pub use fitting::{fromimd_status, remaster_status, survey_status, toimd_status};
pub use flat::{disk_of_a_flat_file, flat_file_of_a_disk};
pub use format::{format_of_a_disk, formatdd_of_a_disk};
pub use guarded::{protected_disk_stays, protected_disk_stays_by_job, protected_disk_stays_called};
pub use in_turn::rescues_in_turn_save_records;
pub use lasting::{
    copy_lasts, export_lasts, format_lasts, formatdd_lasts, further_rescue_lasts, import_lasts,
    job_lasts, new_rescue_lasts, verify_lasts,
};
pub use play::{calls_are_answered, job_is_answered};
pub use ports::ports_status;
pub use rescued::{
    further_rescue_settles_each_record, new_rescue_settles_each_record, rescue_logs_the_rest,
    rescue_stores_in_order,
};
pub use seeks::{
    a_seek_of_a_used_machine_ends, ports_seeks_end, seeks_and_data_commands_stay_apart,
};
pub use settled::job_answers_are_settled;
pub use status::{
    copy_status, exercise_status, export_status, format_status, formatdd_status,
    further_rescue_status, import_status, int13_status, new_rescue_status, play_status,
    verify_status,
};
pub use steps::{
    course_is_a_run, steps_format_tracks, steps_keep_guarded_media, steps_keep_other_fields,
    steps_read_fields, steps_send_few_commands, steps_tell_causes, steps_write_fields,
};
pub use stores::{a_job_that_reads_stores_nothing_new, each_form_stores_its_own};
pub use verify::{verify_finds_all, verify_of_a_disk};
pub use words::form_of_words_ran;
