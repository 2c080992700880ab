// What a word of an expression stands for: a constant number, a leaf by its number, or an operation.
#[derive(Clone, Copy)]
pub enum Item {
    Constant(u32),
    Register(u32),
    Input(u32),
    Symbol(u32),
    Sum,
    Difference,
    Product,
    Negation,
}
