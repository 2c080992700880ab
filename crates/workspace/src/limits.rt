// The form would be over the limits: more than sixteen terms, or a degree above the number of codes.
#[derive(Clone, Copy)]
pub struct OverLimits;
