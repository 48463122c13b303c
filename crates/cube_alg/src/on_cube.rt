//! What is answered for a cube of headers.

/// What is answered for a cube of headers: one answer for all of them, or a bit at which the cube is cut in two
/// before the question is asked again.
#[derive(Clone, Copy, PartialEq, Eq, Debug, Drop)]
pub enum OnCube<T> {
    /// The answer holds of each header of the cube.
    All { answer: T },
    /// The bit is below 112, and `*` in the cube.
    Divides { bit: u32 },
}
