// What a session keeps of a medium that is in.
ghost use Rattle.std.specs.Prelude.{◌≡◌};
ghost use Rattle.floppy_session.specs.Shapes.{shape_of};

use flop_base::Rate;
use raw_image::Medium;

/// What a medium is besides its words and its protection.
#[derive(Clone, Copy)]
pub struct Shape {
    /// 1 to 80.
    pub cylinders: u8,
    /// 1 or 2.
    pub heads: u8,
    /// Words of sixteen cells per track, 64 to 16,384.
    pub words: u16,
    pub rate: Rate,
}

impl Shape {
    pub(crate) fn of(medium: &Medium) -> Shape
        ensures { result ≡ shape_of medium.now }
    {
        Shape {
            cylinders: medium.cylinders(),
            heads: medium.heads(),
            words: medium.words(),
            rate: medium.rate(),
        }
    }
}
