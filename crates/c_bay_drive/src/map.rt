// Which tracks were written.
ghost use Rattle.std.specs.Prelude.{◌≡◌, ⊤, length};
ghost use Rattle.drive_model.specs.Maps.{no_tracks, bit_of as bit_of_place, marked, marked_if};
ghost use Rattle.saved_state.specs.Saved.{spelled_bytes};
ghost use Rattle.c_bay_drive.specs.Joined.{joined};

use saved_state::{Saved, SavedBytes, Source, load_bytes, save_bytes};
use std::marker::Model;

/// The tracks of 80 cylinders and two heads.
const TRACKS: usize = 160;

/// The bytes of a map.
pub const MAP_BYTES: usize = 20;

/// A bit for each track, by cylinder, then head. The bit of track 0 is the lowest of byte 0.
#[derive(Drop)]
pub struct TrackMap {
    bits: [u8; MAP_BYTES],
}

impl Model for TrackMap {
    ghost use Rattle.std.specs.Prelude.{List, ℕ};
    ghost use Rattle.drive_model.specs.Maps.{IsMap};

    ghost Value = { List ℕ };

    ghost view = { λ map. map.bits };

    ghost invariant = { λ map. IsMap map.bits };
}

/// The bit with a number below 8.
fn bit_of(place: usize) -> u8
    ensures { result ≡ bit_of_place place }
{
    match place {
        0 => 1,
        1 => 2,
        2 => 4,
        3 => 8,
        4 => 16,
        5 => 32,
        6 => 64,
        _ => 128,
    }
}

impl TrackMap {
    ghost use Rattle.drive_model.specs.Maps.{IsMap};

    /// No track.
    pub fn new() -> TrackMap
        ensures { result ≡ no_tracks }
    {
        TrackMap {
            bits: [0; MAP_BYTES],
        }
    }

    /// Adds the track of a cylinder and a head. A track that no medium has is left out.
    pub fn mark(&mut self, c: u8, h: u8)
        ensures { self.new ≡ marked c h self.old }
    {
        let track = 2 * usize::from(c) + usize::from(h);
        if track < TRACKS {
            let at = track / 8;
            self.bits[at] = self.bits[at] | bit_of(track % 8);
        }
    }

    /// Adds the track of a cylinder and a head if `on`.
    pub fn mark_if(&mut self, on: bool, c: u8, h: u8)
        ensures { self.new ≡ marked_if on c h self.old }
    {
        if on {
            self.mark(c, h);
        }
    }

    /// Adds the tracks of another map.
    pub fn join(&mut self, other: &TrackMap)
        ensures { self.new ≡ joined other.now self.old }
    {
        let mut bits = [0; MAP_BYTES];
        for at in 0..MAP_BYTES {
            bits[at] = other.bits[at] | self.bits[at];
        }
        self.bits = bits;
    }

    /// The bytes as an array.
    pub fn array(&self) -> [u8; MAP_BYTES]
        ensures { result ≡ self.now }
    {
        self.bits
    }

    /// The bytes.
    pub fn bytes(&self) -> &[u8]
        ensures value { result.now ≡ self.now }
        ensures twenty { length result.now ≡ 20 }
    {
        &self.bits
    }
}

/// The map of these bytes, if they are as many as a map has; else the map of no track.
fn map_of(bytes: &[u8]) -> TrackMap
    ensures { length bytes.now ≡ 20 → result ≡ bytes.now }
{
    let mut bits = [0; MAP_BYTES];
    if bytes.len() == MAP_BYTES {
        bits.copy_from_slice(bytes);
    }
    TrackMap { bits }
}

impl Saved for TrackMap {
    ghost use Rattle.drive_model.specs.Maps.{IsMap};

    ghost spelled = { spelled_bytes };

    ghost Fits = { IsMap };

    fn save(&self, to: &mut SavedBytes) {
        save_bytes(self.bytes(), to);
    }

    fn load(from: &mut Source<'_>) -> TrackMap {
        map_of(load_bytes(from))
    }
}
