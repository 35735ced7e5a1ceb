// The controller with its drives, for a bus of C's own.
mod bare;
mod bays;
mod blocks;
mod dack;
mod drives;
mod lines;
mod making;
mod media;
mod pin;
mod ports;
mod saving;
mod steps;
mod tab;
