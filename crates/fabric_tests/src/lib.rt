//! Tests of the gathering of captures, over a store that gives few bytes at once or refuses, and
//! of a fabric that passes take turns with.
#![tactic(auto)]

#[cfg(test)]
mod settings;
#[cfg(test)]
mod shared;
#[cfg(test)]
mod shared_by_threads;
#[cfg(test)]
mod windows;
