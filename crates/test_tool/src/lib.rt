//! Tests of texts and of the whole program that the built program cannot show: a library with no function of its own.
#![tactic(auto)]

#[cfg(test)]
mod audits;
#[cfg(test)]
mod boards;
#[cfg(test)]
mod journals;
#[cfg(test)]
mod memory_files;
#[cfg(test)]
mod memory_streams;
#[cfg(test)]
mod outputs;
#[cfg(test)]
mod refused;
#[cfg(test)]
mod reports;
#[cfg(test)]
mod services;
#[cfg(test)]
mod short;
#[cfg(test)]
mod words;
