// Planned faults.
ghost use Rattle.std.specs.Prelude.{◌≡◌, ◌+◌, ◌≤◌, ◌<◌, ℕ, false, position, is_some};
ghost use Rattle.std.specs.Bool.{OnTrue, OnFalse};
ghost use Rattle.drive_model.specs.declared.fault.Event.TheVariants.{Read};
ghost use Rattle.drive_model.specs.Fault.{is_for, meets, lowered, count_left, comes, spent, total_left};

/// A fault that comes up to `count` times. `c` is the cylinder under the heads, 0 to 82, `h` the head, and `word` the
/// place on the track, counted from the index, from 0.
#[derive(Clone, Copy, Debug, PartialEq, Eq)]
pub enum Fault {
    /// A read of this word gives 0000.
    Dropout { c: u8, h: u8, word: u16, count: u32 },
    /// A write of this word, through a gate that is open and not cut, cuts the gate.
    Cut { c: u8, h: u8, word: u16, count: u32 },
    /// An inward pulse at this cylinder is lost.
    Lose { c: u8, count: u32 },
    /// An outward pulse at this cylinder is lost.
    Stick { c: u8, count: u32 },
}

/// What a fault can be planned for: a read, a write through an open gate, a pulse.
#[derive(Clone, Copy)]
pub(crate) enum Event {
    Read { c: u8, h: u8, word: u16 },
    Write { c: u8, h: u8, word: u16 },
    Pulse { c: u8, inward: bool },
}

impl Fault {
    /// How often the fault can still come.
    fn count(self) -> u32
        ensures { result ≡ count_left self }
    {
        match self {
            Fault::Dropout { count, .. }
            | Fault::Cut { count, .. }
            | Fault::Lose { count, .. }
            | Fault::Stick { count, .. } => count,
        }
    }

    fn is_for(self, event: Event) -> bool
        ensures { result ≡ is_for event self }
    {
        match (event, self) {
            (
                Event::Read { c, h, word },
                Fault::Dropout {
                    c: at,
                    h: on,
                    word: place,
                    ..
                },
            )
            | (
                Event::Write { c, h, word },
                Fault::Cut {
                    c: at,
                    h: on,
                    word: place,
                    ..
                },
            ) => { at == c && on == h && place == word }
            (Event::Pulse { c, inward }, Fault::Lose { c: at, .. }) => inward && at == c,
            (Event::Pulse { c, inward }, Fault::Stick { c: at, .. }) => !inward && at == c,
            _ => false,
        }
    }

    fn meets(self, event: Event) -> bool
        ensures { result ≡ meets event self }
    {
        self.count() > 0 && self.is_for(event)
    }

    /// How many of the next words under a head, `most` at most, pass before the one that this fault drops.
    fn words_before(self, c: u8, h: u8, place: u16, most: usize) -> usize
        ensures within { result ≤ most }
        ensures none { (i : ℕ) → i < result → meets (Read c h (place + i)) self ≡ false }
        ensures all { count_left self ≡ 0 → result ≡ most }
    {
        match self {
            Fault::Dropout {
                c: at,
                h: on,
                word,
                count,
            } if count > 0 && at == c && on == h && word >= place => {
                most.min(usize::from(word - place))
            }
            _ => most,
        }
    }

    fn lowered(self) -> Fault
        ensures { result ≡ lowered self }
    {
        match self {
            Fault::Dropout { c, h, word, count } => Fault::Dropout {
                c,
                h,
                word,
                count: count.saturating_sub(1),
            },
            Fault::Cut { c, h, word, count } => Fault::Cut {
                c,
                h,
                word,
                count: count.saturating_sub(1),
            },
            Fault::Lose { c, count } => Fault::Lose {
                c,
                count: count.saturating_sub(1),
            },
            Fault::Stick { c, count } => Fault::Stick {
                c,
                count: count.saturating_sub(1),
            },
        }
    }
}

/// The first fault that meets the event.
fn first_planned(faults: &[Fault], event: Event) -> Option<usize>
    ensures { result ≡ position (meets event) faults.now }
{
    faults.iter().position(|fault| fault.meets(event))
}

/// How many of the next words under a head, `most` at most, pass before the first that drops out.
pub(crate) fn words_before(faults: &[Fault], c: u8, h: u8, place: u16, most: usize) -> usize
    ensures within { result ≤ most }
    ensures none { (i : ℕ) → i < result → comes faults.now (Read c h (place + i)) ≡ false }
    ensures all { total_left faults.now ≡ 0 → result ≡ most }
{
    let mut limit = most;
    for fault in faults {
        limit = limit.min(fault.words_before(c, h, place, most));
    }
    limit
}

/// Takes one time off the first fault that meets the event, if there is one.
pub(crate) fn take_fault(faults: &mut Vec<Fault>, event: Event) -> bool
    ensures comes { result ≡ comes faults.old.items event }
    ensures spent { OnTrue result (faults.new.items ≡ spent faults.old.items event) }
    ensures kept { OnFalse result (faults.new.items ≡ faults.old.items) }
    ensures total { OnTrue result
        (total_left faults.new.items + 1 ≡ total_left faults.old.items) }
{
    let Some(first) = first_planned(faults, event) else {
        return false;
    };
    let fault = faults[first];
    faults[first] = fault.lowered();
    true
}
