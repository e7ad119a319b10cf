// The tests of lines: their calls, refusals, limits, pads, modes and vectors. They have a crate of their own, since a crate with
// tests is proved twice.
#![tactic(auto)]

#[cfg(test)]
mod buffers;
#[cfg(test)]
mod ciphers;
#[cfg(test)]
mod limits;
#[cfg(test)]
mod modes;
#[cfg(test)]
mod pads;
#[cfg(test)]
mod refusals;
#[cfg(test)]
mod sessions;
#[cfg(test)]
mod vectors;
