// The counts of the two machines of a comparison.
use machine::head::Head;

// The heads of both tables, and how many registers the machines share.
#[derive(Clone, Copy)]
pub struct Counts {
    pub one: Head,
    pub two: Head,
    pub shared: u32,
}
