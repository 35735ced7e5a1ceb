//! A session over a station: it runs the requests of a job, which move media between the bays and a shelf of images.
#![tactic(auto)]

mod driver;
mod labels;
mod loading;
mod media;
mod memory;
mod session;
mod shape;

pub use loading::{load_medium, store_medium};
pub use session::Session;
pub use shape::Shape;
