// One row of a table, read only: its own words, which are a part of the table's, the place where they start, and a cursor over them.
#[derive(Clone, Copy)]
pub struct Row<'a> {
    pub words: &'a [u32],
    pub start: usize,
    pub cursor: usize,
}
