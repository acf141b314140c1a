// One direction of a stream as the gate holds it.
use crate::marks::Marks;
use window::Window;

#[derive(Drop)]
pub struct Stream {
    pub(crate) window: Window,
    pub(crate) marks: Marks,
}
