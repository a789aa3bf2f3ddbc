//! Tests of the viewer through its top call that are no cases of test_scripts: streams that fail, searches that are
//! cut off, what is told while one goes on, and the numbers of its statuses.
#![tactic(auto)]

#[cfg(test)]
mod called;
#[cfg(test)]
mod exit_codes;
#[cfg(test)]
mod failing;
#[cfg(test)]
mod inputs;
#[cfg(test)]
mod outcomes;
#[cfg(test)]
mod progress;
#[cfg(test)]
mod recorded;
#[cfg(test)]
mod rows;
