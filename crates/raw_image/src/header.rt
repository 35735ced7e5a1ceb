// The header of an image file.
ghost use Rattle.std.specs.Prelude.{◌≡◌, length};
ghost use Rattle.raw_image.specs.Header.{Header, version_of, protection_of, rate_of, within, header_of};
ghost use Rattle.raw_image.specs.Shape.{Tells, header_view};

use crate::error::ImageError;
use crate::shape::ImageShape;
use flop_base::Rate;

/// How many bytes a header has.
pub(crate) const HEADER: usize = 14;

/// The versions of the format. The first one can tell no other rate than 500 kbit/s.
#[derive(Clone, Copy)]
pub(crate) enum Version {
    First,
    Second,
}

fn version_of(bytes: &[u8]) -> Option<Version>
    ensures { result ≡ version_of bytes.now }
{
    if bytes.starts_with(b"RTIMAGE1") {
        Some(Version::First)
    } else if bytes.starts_with(b"RTIMAGE2") {
        Some(Version::Second)
    } else {
        None
    }
}

fn protection_of(flags: u8) -> Option<bool>
    ensures { result ≡ protection_of flags }
{
    match flags {
        0 => Some(false),
        1 => Some(true),
        _ => None,
    }
}

fn rate_of(version: Version, byte: u8) -> Option<Rate>
    ensures { result ≡ rate_of version byte }
{
    match (version, byte) {
        (_, 0) => Some(Rate::R500),
        (Version::Second, 2) => Some(Rate::R250),
        _ => None,
    }
}

/// A count, from 1 to `most`.
fn count_of(byte: u8, most: u8) -> Option<u8>
    ensures { result ≡ within 1 most byte }
{
    (1 <= byte && byte <= most).then_some(byte)
}

fn words_per_track_of(words: u16) -> Option<u16>
    ensures { result ≡ within 64 16384 words }
{
    (64 <= words && words <= 16384).then_some(words)
}

/// What a header of 14 bytes tells.
#[tactic(auto, unfolding(crate::specs::Header::header_of))]
pub(crate) fn header_of(bytes: &[u8]) -> Result<ImageShape, ImageError>
    requires { length bytes.now ≡ HEADER }
    ensures { Tells (header_of bytes.now) result }
{
    let version = version_of(bytes).ok_or(ImageError::BadMagic)?;
    let protected = protection_of(bytes[8]).ok_or(ImageError::BadField { offset: 8 })?;
    let cylinders = count_of(bytes[9], 80).ok_or(ImageError::BadField { offset: 9 })?;
    let heads = count_of(bytes[10], 2).ok_or(ImageError::BadField { offset: 10 })?;
    let rate = rate_of(version, bytes[11]).ok_or(ImageError::BadField { offset: 11 })?;
    let words = u16::from_be_bytes([bytes[12], bytes[13]]);
    let words_per_track = words_per_track_of(words).ok_or(ImageError::BadField { offset: 12 })?;
    Ok(ImageShape {
        protected,
        cylinders,
        heads,
        rate,
        words_per_track,
    })
}
