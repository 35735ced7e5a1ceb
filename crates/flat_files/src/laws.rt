// What follows from the contracts on the places of sectors, and on files that are made again. The bodies are empty.
ghost use Rattle.std.specs.Prelude.{◌≡◌, ◌⊎◌};
ghost use Rattle.flat_files.specs.Files.{GivesFlat, GivesForm, IsFileAgain, IsFlatAgain};
ghost use Rattle.flat_files.specs.Common.{IsDensity, IsSector, sector_place, AreApart};
ghost use Rattle.flat_files.specs.Flats.{HasFlat};
ghost use Rattle.flat_files.specs.FormMaking.{HasForm};

use crate::fault::FlatFault;
use crate::file_fault::FileFault;
use crate::form::FlatForm;
use raw_image::Medium;

/// Two sectors of a file are the same one, or have no byte in common.
pub fn same_or_apart(sectors: u8, c: u8, h: u8, r: u8, other_c: u8, other_h: u8, other_r: u8)
    requires density { IsDensity sectors }
    requires one { IsSector sectors c h r }
    requires other { IsSector sectors other_c other_h other_r }
    ensures { ((c ≡ other_c) × (h ≡ other_h) × (r ≡ other_r))
        ⊎ AreApart (sector_place sectors c h r) (sector_place sectors other_c other_h other_r) }
{}

/// If a flat file made a medium, the flat file of that medium is that file again, byte for byte. Nothing but a lack of
/// memory refuses it.
pub fn file_made_again(
    _form: FlatForm,
    _bytes: &[u8],
    _medium: &Medium,
    _file: &Result<Vec<u8>, FileFault>,
)
    requires made { HasForm _form _bytes.now _medium.now }
    requires given { GivesForm _form _medium.now _file.now }
    ensures { IsFileAgain _bytes.now _file.now }
{}

/// If a flat file of 1.44 MB or 720 KB made a medium, the flat file of that medium is that file again. Nothing but a
/// lack of memory refuses it.
pub fn flat_made_again(
    _sectors: u8,
    _bytes: &[u8],
    _medium: &Medium,
    _file: &Result<Vec<u8>, FlatFault>,
)
    requires made { HasFlat _bytes.now _sectors _medium.now }
    requires given { GivesFlat _medium.now _file.now }
    ensures { IsFlatAgain _bytes.now _file.now }
{}
