//! A medium is listed field by field, or laid out anew.
#![tactic(auto)]

mod disk;
mod error;
mod fit;
pub mod laws;
mod lines;
mod looked;
mod relaid;
mod sectors;

pub use disk::remaster;
pub use error::RemasterError;
pub use lines::{SurveyEnd, SurveyLine, survey};
pub use looked::{LookedField, list_looked};
pub use sectors::{Sector, list_sectors};
