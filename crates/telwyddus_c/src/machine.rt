// The machine, for benches of drivers.
mod bays;
mod making;
mod memory;
mod ports;
mod saving;
