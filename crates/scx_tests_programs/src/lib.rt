//! Tests of programs: read from bytes and texts, verified, told of, and run also where they aren't safe.
#![tactic(auto)]

#[cfg(test)]
mod malicious;
#[cfg(test)]
mod programs;
#[cfg(test)]
mod same;
#[cfg(test)]
mod tests;
