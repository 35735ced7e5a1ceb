//! Examples of the library, one in each file: a sector of an image, a controller at its ports, a driver over a machine,
//! the strap for step times, the drive of a bay, and the rest on one diskette. The first step that doesn't come out as it should ends the
//! program with status 1.
#![tactic(auto)]

mod bay;
mod controller;
mod diskette;
mod driver;
mod files;
mod guest;
mod sector;
mod straps;
mod tools;
mod trouble;

use trouble::Trouble;

fn main(rt: HostRuntime) -> Result<(), Trouble> {
    sector::run(&rt)?;
    controller::run(&rt)?;
    driver::run(&rt)?;
    straps::run(&rt)?;
    bay::run(&rt)?;
    diskette::run(&rt)
}
