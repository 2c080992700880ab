// Worked points of the definitions.
ghost use Rattle.correspondence.specs.Points.{WorkedPoints};

// The points of normal forms and domains, and the verdicts on the loop counter.
pub fn points_hold()
    ensures { WorkedPoints }
{
    forms::points::points_hold();
}
