// A drive of the bench, and the medium in it.
ghost use Rattle.std.specs.Prelude.{◌≡◌, ◌+◌, ◌*◌, ◌-◌, ◌≤◌, ◌≢◌, ◌⊎◌, ◌↔◌, IsTrue, ℕ, true, false, length, IsSome, IfOk, IfErr, MatchOption};
ghost use Rattle.std.specs.Option.{option_map_or, ForSome};
ghost use Rattle.test_driver.specs.Common.{IsDisk, IsTrackSized, IsInside, IsSizeCode, IsAddressAt, content_size, content_at, met_in, HasNothing};

use flop_base::{Chrn, Code, NoMemory, Rate};
use raw_image::Medium;
use sector_map::{content_byte, find_sector, list_fields};
use std::alloc::Global;
use track_model::Look;

/// The innermost cylinder.
const LAST_CYLINDER: u8 = 79;

/// A drive and the medium in it.
#[derive(Drop)]
pub(crate) struct BenchDrive {
    pub medium: Option<Medium>,
    pub cylinder: u8,
    /// The controller's number of the cylinder.
    pub number: u8,
    pub changed: bool,
    pub at_speed: bool,
    pub faults: u64,
    ghost reachable: { cylinder ≤ 79 },
    ghost valid: { ForSome medium IsDisk },
}

/// Whether two rates are the same.
pub(crate) fn same_rate(a: Rate, b: Rate) -> bool
    ensures { IsTrue result ↔ (a ≡ b) }
{
    a == b
}

/// Copies the content that begins at cell `place`.
fn copy_content(track: &[u16], place: usize, n: u8, content: &mut [u8])
    requires sized { IsTrackSized track.now }
    requires room { length content.old ≡ content_size n }
    requires inside { IsInside track.now place (16 * (content_size n + 2)) }
    ensures { content.new ≡ content_at track.now place n }
{
    for i in 0..content.len() {
        content[i] = content_byte(track, place, i);
    }
}

impl BenchDrive {
    ghost use Rattle.test_driver.specs.Drives.{Moved, RecalibratesDrive, SeeksDrive, Spins, Exchanged, Faulted};
    ghost use Rattle.test_driver.specs.Found.{IsUnderHead, FindsOn, IsMissedOn};

    /// An empty drive.
    pub fn empty() -> BenchDrive
        ensures medium { result.medium ≡ None }
        ensures changed { result.changed ≡ true }
    {
        BenchDrive {
            medium: None,
            cylinder: LAST_CYLINDER,
            number: 0,
            changed: true,
            at_speed: false,
            faults: 0,
        }
    }

    /// Whether a protected medium is in.
    pub fn is_protected(&self) -> bool
        ensures { result ≡ option_map_or (λ disk. disk.protected) self.now.medium false }
    {
        match &self.medium {
            Some(medium) => medium.protected(),
            None => false,
        }
    }

    /// A pulse came through: the change line clears if a medium is in.
    fn clear_change(&mut self)
        ensures same { self.new ≡ record self.old { changed = self.new.changed } }
        ensures moved { Moved self.old self.new }
        ensures clear { IsSome self.old.medium → self.new.changed ≡ false }
    {
        if self.medium.is_some() {
            self.changed = false;
        }
    }

    /// At most 79 pulses outward, of which some are lost. True if track 0 is reached.
    pub fn recalibrate(&mut self, lost: u8) -> bool
        ensures { RecalibratesDrive self.old result self.new }
    {
        let lost = lost.min(LAST_CYLINDER);
        let steps = self.cylinder.min(LAST_CYLINDER - lost);
        self.cylinder -= steps;
        self.number = 0;
        self.fail(lost);
        if steps == 0 {
            return self.cylinder == 0;
        }
        self.clear_change();
        self.cylinder == 0
    }

    /// The pulses to a cylinder. If some of them are lost, all are.
    pub fn seek(&mut self, target: u8, lost: u8)
        requires { target ≤ 79 }
        ensures { SeeksDrive target self.old self.new }
    {
        let from = self.number;
        self.number = target;
        if lost > 0 {
            self.fail(lost);
            return;
        }
        if from == target {
            return;
        }
        if from < target {
            self.cylinder = self
                .cylinder
                .saturating_add(target - from)
                .min(LAST_CYLINDER);
        } else {
            self.cylinder = self.cylinder.saturating_sub(from - target);
        }
        self.clear_change();
    }

    /// Comes to speed if a medium is in.
    pub fn spin(&mut self)
        ensures { Spins self.old self.new }
    {
        if self.medium.is_some() {
            self.at_speed = true;
        }
    }

    /// Gives the drive another medium, or none.
    pub fn exchange(&mut self, medium: Option<Medium>)
        ensures { Exchanged self.old self.new }
    {
        if let Some(disk) = &medium {
            disk.words();
        }
        self.medium = medium;
        self.changed = true;
        self.at_speed = false;
    }

    /// Adds `count` faults.
    pub fn fail(&mut self, count: u8)
        ensures { Faulted count self.old self.new }
    {
        let faults = self.faults;
        self.faults = faults.saturating_add(u64::from(count));
    }

    /// The track under a head, if the medium has it at this rate.
    pub fn track(&self, rate: Rate, head: u8) -> Option<&[u16]>
        ensures { MatchOption result (HasNothing (met_in self.now.medium rate self.now.cylinder head))
            (λ track. IsUnderHead self.now.medium rate self.now.cylinder head track.now) }
    {
        let Some(medium) = &self.medium else {
            return None;
        };
        if !same_rate(medium.rate(), rate) {
            return None;
        }
        medium.track(self.cylinder, head)
    }

    /// Reads the record of a key, and says whether it is marked deleted. A read that is refused changes nothing.
    pub fn read(&self, key: Chrn, rate: Rate, content: &mut [u8]) -> Result<bool, Code>
        requires coded { IsSizeCode key.n }
        requires room { length content.old ≡ content_size key.n }
        ensures found { IfOk result (λ deleted. FindsOn self.now.medium rate self.now.cylinder key deleted content.new) }
        ensures refused { IfErr result (λ code. IsMissedOn (met_in self.now.medium rate self.now.cylinder key.h) key code) }
        ensures kept { IfErr result (λ code. content.new ≡ content.old) }
    {
        let Some(track) = self.track(rate, key.h) else {
            return Err(Code::NoMark);
        };
        match find_sector(track, key) {
            Look::Found { deleted, place } => {
                copy_content(track, place, key.n, content);
                Ok(deleted)
            }
            Look::NoMark | Look::NoData => Err(Code::NoMark),
            Look::NoSector => Err(Code::NotFound),
            Look::BadCrc => Err(Code::BadCrc),
        }
    }

    /// The key of the first address field on the track under a head, if there is one and memory suffices to find it.
    pub fn read_id(&self, alloc: Global, rate: Rate, head: u8) -> Result<Option<Chrn>, NoMemory>
        ensures { IfOk result (λ found. MatchOption found
            ((p : ℕ) (key : Chrn) → IsAddressAt (met_in self.now.medium rate self.now.cylinder head) p key → ⊥)
            (λ key. (p : ℕ) × IsAddressAt (met_in self.now.medium rate self.now.cylinder head) p key)) }
    {
        let Some(track) = self.track(rate, head) else {
            return Ok(None);
        };
        let fields = list_fields(alloc, track)?;
        if fields.len() > 0 {
            Ok(Some(fields[0].key))
        } else {
            Ok(None)
        }
    }
}
