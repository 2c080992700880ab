use crate::monomial::Monomial;

#[derive(Clone, Copy)]
pub struct Term<D> {
    pub coefficient: D,
    pub monomial: Monomial,
}
