//! Tests of the calls of sig_host and of what it stands on, through whole runs, that are no cases of test_scripts:
//! the settings that arguments give, streams that fail, gates at which workers are held, records as values, and
//! runs that are compared with each other.
#![tactic(auto)]

#[cfg(test)]
mod alone;
#[cfg(test)]
mod apart;
#[cfg(test)]
mod arguments;
#[cfg(test)]
mod crossing;
#[cfg(test)]
mod exit_codes;
#[cfg(test)]
mod exits;
#[cfg(test)]
mod failing;
#[cfg(test)]
mod gates;
#[cfg(test)]
mod origins;
#[cfg(test)]
mod records;
#[cfg(test)]
mod runs;
#[cfg(test)]
mod scripts;
#[cfg(test)]
mod whole;
#[cfg(test)]
mod workers;
