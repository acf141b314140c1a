// One direction of a stream: what is known of each place, the text looked at so far, and what of a segment is passed on.
#![tactic(auto)]

mod answer;
pub mod laws;
mod look;
mod marks;
mod part;
mod stream;
mod take;

pub use answer::{Passed, Refused, WordAt};
pub use look::Reached;
pub use marks::Marks;
pub use part::Part;
pub use stream::Stream;
