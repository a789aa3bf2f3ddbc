//! Tests of the calls of sig_process and of the crates below it: those that memory can be refused, their
//! limits, and processes step by step; threads over a shared queue; and the search.
#![tactic(auto)]

#[cfg(test)]
mod base;
#[cfg(test)]
mod flushing;
#[cfg(test)]
mod held;
#[cfg(test)]
mod inner;
#[cfg(test)]
mod kinds;
#[cfg(test)]
mod links;
#[cfg(test)]
mod lists;
#[cfg(test)]
mod orders;
#[cfg(test)]
mod patterns;
#[cfg(test)]
mod pids;
#[cfg(test)]
mod portraits;
#[cfg(test)]
mod processes;
#[cfg(test)]
mod putting;
#[cfg(test)]
mod relay;
#[cfg(test)]
mod search;
#[cfg(test)]
mod shared;
#[cfg(test)]
mod switching;
#[cfg(test)]
mod terms;
#[cfg(test)]
mod watch;
