// A test of two values.
#[derive(Clone, Copy, PartialEq, Eq)]
pub enum Test {
    Same,
    Below,
}
