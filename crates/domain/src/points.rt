// Worked points of the two domains, proved of their definitions.
ghost use Rattle.domain.specs.Points.{DomainPoints};

// Hex 57 times 83 is c1 over bytes; 0 - 1 is below 0 over words, and not over bytes.
pub fn points_hold()
    ensures { DomainPoints }
{}
