// Tracks: cells, fields as their words pass, and the layout of a formatted track.
pub use sector_map::{
    Field, address_words, field_words, fill_field_words, is_regular, window_word,
};
pub use track_format::{
    FormatStream, LayoutError, NARROW_GAP, WIDE_GAP, choose_gap, fill_layout, layout,
};
pub use track_model::{
    MARKS_CRC, cells16, crc_step, decode_word, encode_byte, field_crc, mark_crc,
};
pub use track_separator::{Seen, Separator};
