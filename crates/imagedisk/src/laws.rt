// What is found on the tracks that an image makes.
ghost use Rattle.imagedisk.specs.Images.{IsImdTrack, IsImdImage};
ghost use Rattle.imagedisk.specs.Made.{IsMadeTrack, IsMediumOf};
ghost use Rattle.imagedisk.specs.Maps.{HasMapOf};
ghost use Rattle.imagedisk.specs.Found.{HasSectors, HasImage, SharesSectors};
ghost use Rattle.imagedisk.specs.Taken.{IsImageOf};

use crate::{ImdImage, ImdTrack};
use flop_base::Rate;
use raw_image::Medium;

/// A law: a track that an image makes has the address fields of the image's sectors and no others, in their order. Good
/// and deleted data are found, with their content. Bad data have a wrong CRC. Of absent data nothing is found.
pub fn made_is_found(_least: u8, _rate: Rate, _track: &ImdTrack, _words: &[u16])
    requires valid { IsImdTrack _track.now }
    requires made { IsMadeTrack _least _rate _track.now _words.now }
    ensures { HasSectors _words.now _track.now.sectors }
{}

/// A law: the diskette of an image has the image's tracks, each with its sectors, and has no other address field.
pub fn medium_has_image(_least: u8, _image: &ImdImage, _medium: &Medium)
    requires valid { IsImdImage _image.now }
    requires made { IsMediumOf _least _image.now _medium.now }
    ensures { HasImage _medium.now _image.now }
{}

/// A law: the diskette that an image was taken of has the image's tracks, each with its sectors, and no other address
/// field.
pub fn image_has_medium(_image: &ImdImage, _medium: &Medium)
    requires { IsImageOf _medium.now _image.now }
    ensures { HasImage _medium.now _image.now }
{}

/// A law: an image is taken of a diskette, and a diskette is made of that image. The new diskette has the same sectors
/// as the old one, track by track and in the same order, and no others.
pub fn made_again_is_same(_least: u8, _old: &Medium, _image: &ImdImage, _new: &Medium)
    requires taken { IsImageOf _old.now _image.now }
    requires valid { IsImdImage _image.now }
    requires made { IsMediumOf _least _image.now _new.now }
    ensures kept { SharesSectors _old.now _new.now }
    ensures no_more { SharesSectors _new.now _old.now }
{}

/// A law: the map of a diskette that has the sectors of an image is the list of the image's good and deleted sectors,
/// by cylinder, head and place. Two diskettes that have the sectors of one image therefore have the same map.
pub fn image_is_map(_image: &ImdImage, _medium: &Medium)
    requires { HasImage _medium.now _image.now }
    ensures { HasMapOf _medium.now _image.now }
{}
