// One line of a plan.
ghost use Rattle.std.specs.Prelude.{◌≡◌, map};
ghost use Rattle.fault_plan.specs.Lines.{drop_of, cut_of, lose_of, stick_of, gap_of, hold_of, stray_of, plan_line_of};

use crate::fields::{count, cylinder, drive, head, span, word_place};
use drive_model::Fault;
use floppy_jobs::is_verb;
use floppy_jobs::lines::{Line, LineError};
use floppy_jobs::numbers::byte;
use std::alloc::Global;

/// A drive as plans name it: in a bay, or spare.
#[derive(Clone, Copy)]
pub enum PlannedDrive {
    /// 0: the drive in bay 0.
    Bay0,
    /// 1: the drive in bay 1.
    Bay1,
    /// 2: the spare that is taken first.
    Spare0,
    /// 3: the other spare.
    Spare1,
}

/// One line of a plan.
#[derive(Clone, Copy)]
pub enum PlanLine {
    /// A fault of a drive.
    Fault { drive: PlannedDrive, fault: Fault },
    /// So many gaps of so many device steps.
    Gap { steps: u8, count: u16 },
    /// So many DMA latencies (holds) of so many device steps.
    Hold { steps: u8, count: u16 },
    /// So many spurious interrupts (strays), so many device steps apart.
    Stray { steps: u16, count: u16 },
}

impl Line for PlanLine {
    ghost spelled = { plan_line_of };

    fn read(_alloc: Global, words: &[&[u8]]) -> Result<PlanLine, LineError> {
        plan_line(words).ok_or(LineError::NotUnderstood)
    }
}

#[tactic(auto, unfolding(crate::specs::Lines::plan_line_of))]
fn plan_line(words: &[&[u8]]) -> Option<PlanLine>
    ensures { result ≡ plan_line_of (map (λ word. word.now) words.now) }
{
    let (verb, fields) = words.split_first()?;
    if is_verb(verb, "drop") {
        dropout(fields)
    } else if is_verb(verb, "cut") {
        cut(fields)
    } else if is_verb(verb, "lose") {
        lose(fields)
    } else if is_verb(verb, "stick") {
        stick(fields)
    } else if is_verb(verb, "gap") {
        gap(fields)
    } else if is_verb(verb, "hold") {
        hold(fields)
    } else if is_verb(verb, "stray") {
        stray(fields)
    } else {
        None
    }
}

#[tactic(auto, unfolding(crate::specs::Lines::drop_of))]
fn dropout(fields: &[&[u8]]) -> Option<PlanLine>
    ensures { result ≡ drop_of (map (λ word. word.now) fields.now) }
{
    let [d, c, h, place, times] = fields else {
        return None;
    };
    let drive = drive(d)?;
    let c = cylinder(c)?;
    let h = head(h)?;
    let word = word_place(place)?;
    let count = u32::from(count(times)?);
    let fault = Fault::Dropout { c, h, word, count };
    Some(PlanLine::Fault { drive, fault })
}

#[tactic(auto, unfolding(crate::specs::Lines::cut_of))]
fn cut(fields: &[&[u8]]) -> Option<PlanLine>
    ensures { result ≡ cut_of (map (λ word. word.now) fields.now) }
{
    let [d, c, h, place, times] = fields else {
        return None;
    };
    let drive = drive(d)?;
    let c = cylinder(c)?;
    let h = head(h)?;
    let word = word_place(place)?;
    let count = u32::from(count(times)?);
    let fault = Fault::Cut { c, h, word, count };
    Some(PlanLine::Fault { drive, fault })
}

#[tactic(auto, unfolding(crate::specs::Lines::lose_of))]
fn lose(fields: &[&[u8]]) -> Option<PlanLine>
    ensures { result ≡ lose_of (map (λ word. word.now) fields.now) }
{
    let [d, c, times] = fields else { return None };
    let drive = drive(d)?;
    let c = cylinder(c)?;
    let count = u32::from(count(times)?);
    let fault = Fault::Lose { c, count };
    Some(PlanLine::Fault { drive, fault })
}

#[tactic(auto, unfolding(crate::specs::Lines::stick_of))]
fn stick(fields: &[&[u8]]) -> Option<PlanLine>
    ensures { result ≡ stick_of (map (λ word. word.now) fields.now) }
{
    let [d, c, times] = fields else { return None };
    let drive = drive(d)?;
    let c = cylinder(c)?;
    let count = u32::from(count(times)?);
    let fault = Fault::Stick { c, count };
    Some(PlanLine::Fault { drive, fault })
}

#[tactic(auto, unfolding(crate::specs::Lines::gap_of))]
fn gap(fields: &[&[u8]]) -> Option<PlanLine>
    ensures { result ≡ gap_of (map (λ word. word.now) fields.now) }
{
    let [steps, times] = fields else { return None };
    let steps = byte(steps)?;
    let count = count(times)?;
    Some(PlanLine::Gap { steps, count })
}

#[tactic(auto, unfolding(crate::specs::Lines::hold_of))]
fn hold(fields: &[&[u8]]) -> Option<PlanLine>
    ensures { result ≡ hold_of (map (λ word. word.now) fields.now) }
{
    let [steps, times] = fields else { return None };
    let steps = byte(steps)?;
    let count = count(times)?;
    Some(PlanLine::Hold { steps, count })
}

#[tactic(auto, unfolding(crate::specs::Lines::stray_of))]
fn stray(fields: &[&[u8]]) -> Option<PlanLine>
    ensures { result ≡ stray_of (map (λ word. word.now) fields.now) }
{
    let [steps, times] = fields else { return None };
    let steps = span(steps)?;
    let count = count(times)?;
    Some(PlanLine::Stray { steps, count })
}
