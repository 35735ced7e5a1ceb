// The five bytes that a track begins with.
ghost use Rattle.std.specs.Prelude.{◌≡◌, ◌+◌, ◌≤◌, false, length, IfOk};
ghost use Rattle.imagedisk.specs.Left.{rest_of, Gives};
ghost use Rattle.imagedisk.specs.Headers.{mode_byte, rate_of, cylinder_of, size_code_of, head_of, has_track, new_head_of, header_at};

use crate::left::Left;
use crate::track::ImdTrack;
use flop_base::Rate;
use raw_image::ImageError;

/// The bit of the head byte that says that a map of cylinders follows.
pub(crate) const CYLINDER_MAP: u8 = 128;

/// The bit of the head byte that says that a map of heads follows.
pub(crate) const HEAD_MAP: u8 = 64;

/// What the head byte tells.
#[derive(Clone, Copy)]
pub(crate) struct HeadByte {
    pub has_cylinders: bool,
    pub has_heads: bool,
    pub head: u8,
}

/// What the five bytes of a track tell.
#[derive(Clone, Copy)]
pub(crate) struct Header {
    pub rate: Rate,
    pub c: u8,
    pub h: u8,
    pub has_cylinders: bool,
    pub has_heads: bool,
    pub sectors: u8,
    pub n: u8,
}

/// The mode byte of MFM at a rate.
pub(crate) fn mode_byte(rate: Rate) -> u8
    ensures { result ≡ mode_byte rate }
{
    match rate {
        Rate::R500 => 3,
        Rate::R250 => 5,
    }
}

/// The rate of a mode byte, if the tracks before have the rate `before`.
fn rate_of(before: Option<Rate>, mode: u8) -> Option<Rate>
    ensures { result ≡ rate_of before mode }
{
    match before {
        Some(rate) => (mode == mode_byte(rate)).then_some(rate),
        None => match mode {
            3 => Some(Rate::R500),
            5 => Some(Rate::R250),
            _ => None,
        },
    }
}

fn cylinder_of(byte: u8) -> Option<u8>
    ensures { result ≡ cylinder_of byte }
{
    (byte <= 79).then_some(byte)
}

fn size_code_of(byte: u8) -> Option<u8>
    ensures { result ≡ size_code_of byte }
{
    (1 <= byte && byte <= 6).then_some(byte)
}

fn head_of(byte: u8) -> Option<HeadByte>
    ensures { result ≡ head_of byte }
{
    (byte % HEAD_MAP <= 1).then_some(HeadByte {
        has_cylinders: CYLINDER_MAP <= byte,
        has_heads: HEAD_MAP <= byte % CYLINDER_MAP,
        head: byte % HEAD_MAP,
    })
}

/// Whether a track of this cylinder and head is among these.
fn has_track(tracks: &[ImdTrack], c: u8, h: u8) -> bool
    ensures { result ≡ has_track tracks.now c h }
{
    tracks.iter().any(|track| track.c == c && track.h == h)
}

/// The head byte of a track, if no track of its cylinder and head is among these.
fn new_head_of(tracks: &[ImdTrack], c: u8, byte: u8) -> Option<HeadByte>
    ensures { result ≡ new_head_of tracks.now c byte }
{
    if has_track(tracks, c, byte % HEAD_MAP) {
        None
    } else {
        head_of(byte)
    }
}

/// Reads the five bytes of a track. `tracks` are the tracks that came before it.
#[tactic(auto, unfolding(crate::specs::Headers::header_at))]
pub(crate) fn read_header<'a>(
    before: Option<Rate>,
    tracks: &[ImdTrack],
    left: Left<'a>,
) -> Result<(Header, Left<'a>), ImageError>
    ensures read { Gives (λ x. (x.0, rest_of x.1)) result (header_at before tracks.now (rest_of left.entry)) }
    ensures cylinder { IfOk result (λ x. x.0.c ≤ 79) }
    ensures head { IfOk result (λ x. x.0.h ≤ 1) }
    ensures least { IfOk result (λ x. 1 ≤ x.0.n) }
    ensures most { IfOk result (λ x. x.0.n ≤ 6) }
    ensures fresh { IfOk result (λ x. has_track tracks.now x.0.c x.0.h ≡ false) }
    ensures shorter { IfOk result (λ x. length x.1.bytes.now + 5 ≤ length left.entry.bytes.now) }
{
    let offset = left.offset;
    let (five, after) = left.part(5)?;
    let rate = rate_of(before, five[0]).ok_or(ImageError::BadField { offset })?;
    let c = cylinder_of(five[1]).ok_or(ImageError::BadField { offset: offset + 1 })?;
    let head = new_head_of(tracks, c, five[2]).ok_or(ImageError::BadField { offset: offset + 2 })?;
    let n = size_code_of(five[4]).ok_or(ImageError::BadField { offset: offset + 4 })?;
    let header = Header {
        rate,
        c,
        h: head.head,
        has_cylinders: head.has_cylinders,
        has_heads: head.has_heads,
        sectors: five[3],
        n,
    };
    Ok((header, after))
}
