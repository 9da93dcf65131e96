//! Tests of shared stores and of runs in threads that the built program cannot show: a library with no function of its
//! own.
#![tactic(auto)]

#[cfg(test)]
mod boards;
#[cfg(test)]
mod full;
#[cfg(test)]
mod gathers;
#[cfg(test)]
mod given;
#[cfg(test)]
mod insists;
#[cfg(test)]
mod looks;
#[cfg(test)]
mod refused;
#[cfg(test)]
mod seats;
#[cfg(test)]
mod serves;
#[cfg(test)]
mod turns;
