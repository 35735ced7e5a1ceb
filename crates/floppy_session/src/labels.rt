// What a session keeps of the media that are in its bays.
ghost use Rattle.std.specs.Prelude.{◌≡◌, ◌≤◌, None, Some};
ghost use Rattle.flop_base.specs.Bays.{both, in_bay, with_bay};

use crate::shape::Shape;
use flop_base::{Name, Two};

/// The names and the shapes of the media that are in.
#[derive(Drop)]
pub(crate) struct Labels {
    names: Two<Option<Name>>,
    shapes: Two<Option<Shape>>,
}

impl Labels {
    /// The labels of empty bays.
    pub(crate) fn none() -> Labels
        ensures names { result.names ≡ both None }
        ensures shapes { result.shapes ≡ both None }
    {
        Labels {
            names: Two::new(None, None),
            shapes: Two::new(None, None),
        }
    }

    /// The shape of the medium in a bay, or nothing if none is in.
    pub(crate) fn shape(&self, bay: u8) -> Option<Shape>
        ensures { result ≡ in_bay self.now.shapes bay }
    {
        *self.shapes.get(bay)
    }

    /// Sets the name of a bay, and the shape of its medium.
    pub(crate) fn set(&mut self, bay: u8, name: Name, shape: Shape)
        ensures names { self.new.names ≡ with_bay self.old.names bay (Some name) }
        ensures shapes { self.new.shapes ≡ with_bay self.old.shapes bay (Some shape) }
    {
        self.names.replace(bay, Some(name));
        self.shapes.replace(bay, Some(shape));
    }

    /// Takes the name of a bay out, so that the bay has none, and drops the shape of its medium.
    pub(crate) fn take(&mut self, bay: u8) -> Option<Name>
        ensures name { result ≡ in_bay self.old.names bay }
        ensures names { self.new.names ≡ with_bay self.old.names bay None }
        ensures shapes { self.new.shapes ≡ with_bay self.old.shapes bay None }
    {
        self.shapes.replace(bay, None);
        self.names.replace(bay, None)
    }
}
