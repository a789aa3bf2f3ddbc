//! Tests of the tool through its top call that are no cases of test_scripts: streams that fail, an input of as many
//! bytes as there may be, and the numbers of its statuses.
#![tactic(auto)]

#[cfg(test)]
mod called;
#[cfg(test)]
mod exit_codes;
#[cfg(test)]
mod failing;
#[cfg(test)]
mod inputs;
#[cfg(test)]
mod large;
