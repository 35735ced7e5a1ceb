// A desk for the sectors of diskettes.
mod answers;
mod bays;
mod making;
mod sectors;
