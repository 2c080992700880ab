// Worked points, proved of the definitions.
ghost use Rattle.forms.specs.Points.{FormPoints};

// What (s0 + 1) (s0 - 1) and the powers of s0 come to, over words and over bytes.
pub fn points_hold()
    ensures { FormPoints }
{
    domain::points::points_hold();
}
