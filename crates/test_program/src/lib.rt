//! Tests where only calls can show something. They test the program's edge: shelves and sinks, those of the system and
//! those in memory, and texts that the program doesn't print. They also test the calls of a session and of a machine
//! one by one, and drives in a `Box`, one of the tests' own among them.
#![tactic(auto)]

#[cfg(test)]
mod calls;
#[cfg(test)]
mod exchange;
#[cfg(test)]
mod machines;
#[cfg(test)]
mod outside;
#[cfg(test)]
mod printed;
#[cfg(test)]
mod session;
#[cfg(test)]
mod shelves;
#[cfg(test)]
mod single;
#[cfg(test)]
mod stores;
#[cfg(test)]
mod stuck;
