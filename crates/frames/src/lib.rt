// The gate's input as bytes: first the configuration, then packets and ticks, each read from the front of what has come.
#![tactic(auto)]

mod config;
mod fill;
mod input;
mod item;
pub mod laws;
mod read;
mod refusal;

pub use config::Config;
pub use input::Input;
pub use item::Item;
pub use refusal::{ConfigError, Fault, Refusal};

#[cfg(test)]
mod tests;
