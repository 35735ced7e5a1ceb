// Media, their files, and the sectors of their tracks.
pub use flat_files::{FlatFault, blank_flat, flat_file, flat_medium};
pub use imagedisk::{ImdError, ImdImage, from_medium, read_imd, to_medium, write_imd};
pub use raw_image::{ImageError, ImageReader, Medium, read_image, write_image};
pub use sector_map::flat::{check, place};
pub use sector_map::{
    Absent, Look, TurnRead, content_byte, failing, find_address, find_sector, is_regular_disk,
    keys_of_track, list_fields, look, place_window, read_turn,
};
