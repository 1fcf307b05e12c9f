//! Tests of the libraries that make up a host, by calls that no file makes: dispatch queues, and trees of weights and
//! limits that are refused.
#![tactic(auto)]

#[cfg(test)]
mod same;
#[cfg(test)]
mod tests;
#[cfg(test)]
mod weights;
