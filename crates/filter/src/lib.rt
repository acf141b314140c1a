// The gate.
#![tactic(auto)]

mod acknowledge;
mod connection;
mod dropped;
mod forward;
pub mod laws;
mod side;

pub use dropped::{Dropped, Refusal};
pub use side::{NoSuchSide, Side};
