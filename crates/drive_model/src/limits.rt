// Numbers of a drive, brought into their ranges, whatever was read.
ghost use Rattle.std.specs.Prelude.{◌≡◌, ◌≤◌, ◌-◌};
ghost use Rattle.drive_model.specs.Drive.{track_words};

use raw_image::Medium;

/// The cylinder, if the heads reach it; else 0.
pub fn limited_cylinder(cylinder: u8) -> u8
    ensures reached { result ≤ 82 }
    ensures same { cylinder ≤ 82 → result ≡ cylinder }
{
    if cylinder <= 82 { cylinder } else { 0 }
}

/// The place, if it is on the track of the medium; else 0.
pub fn limited_place(place: u16, medium: &Option<Medium>) -> u16
    ensures on_the_track { result ≤ track_words medium.now - 1 }
    ensures same { place ≤ track_words medium.now - 1 → result ≡ place }
{
    let words = match medium {
        Some(medium) => medium.words(),
        None => 0,
    };
    if place < words { place } else { 0 }
}

/// The time of spinning up in word times, if it is at most 6,250; else 0.
pub fn limited_spin(spin: u16) -> u16
    ensures spun_up { result ≤ 6250 }
    ensures same { spin ≤ 6250 → result ≡ spin }
{
    if spin <= 6250 { spin } else { 0 }
}
