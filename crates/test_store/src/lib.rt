//! Tests of the store that no script can make, or no short one: a library with no function of its own.
#![tactic(auto)]

#[cfg(test)]
mod dropped;
#[cfg(test)]
mod given;
#[cfg(test)]
mod links;
#[cfg(test)]
mod refused;
#[cfg(test)]
mod rows;
