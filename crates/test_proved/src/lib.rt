//! Tests that must themselves be proved, for properties that rows cannot test:
//!
//! - theorems called from another crate,
//! - sinks at concrete types,
//! - the contracts of `serve_one` and `run_client` with devices that record everything,
//! - the examples of the documentation.
//!
//! All other tests are rows of text (docs/TESTING.md). The crate has no code outside its tests, and no other crate uses
//! it. Continue with `examples.rt`, which has most of the tests.
#![tactic(auto)]

#[cfg(test)]
mod client;
#[cfg(test)]
mod devices;
#[cfg(test)]
mod examples;
#[cfg(test)]
mod laws;
#[cfg(test)]
mod recording;
#[cfg(test)]
mod sinks;
