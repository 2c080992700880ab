// The places of a row from `from` on and before `to`. No ghost field says that they are within: that is so of a row at hand.
// (Row and spans apart: the row is lent, and is written while spans point into it.)
#[derive(Clone, Copy)]
pub struct Span {
    pub from: usize,
    pub to: usize,
}
