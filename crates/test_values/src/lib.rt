//! Tests of the values, rules and files that a store is made of: a library with no function of its own.
#![tactic(auto)]

#[cfg(test)]
mod blocks;
#[cfg(test)]
mod rules;
#[cfg(test)]
mod setups;
#[cfg(test)]
mod values;
