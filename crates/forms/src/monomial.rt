// Monomials: words of codes that never rise from the top byte down; 0 is an empty code.
ghost use Rattle.std.specs.Prelude.{◌≡◌, ◌≤◌};
ghost use Rattle.forms.specs.Monomials.{K, degree, monomial_product, no_codes, one_code};

// The number of codes.
pub const CODES: u32 = 4;

// How far the first code stands above the last.
const SHIFT: u32 = 8 * (CODES - 1);

#[derive(Clone, Copy, PartialEq, Eq, PartialOrd, Ord)]
pub struct Monomial(pub u32);

// The monomial of the variable with this code.
impl From<u8> for Monomial {
    ghost from_gives = { λ code m. m ≡ one_code code };

    fn from(code: u8) -> Monomial {
        Monomial((code as u32) << SHIFT)
    }
}

impl Monomial {
    // The monomial of no code.
    pub fn none() -> Monomial
        ensures { result ≡ no_codes }
    {
        Monomial(0)
    }

    // How many codes are not empty.
    pub fn degree(self) -> u32
        ensures degree { result ≡ degree self }
        ensures few { result ≤ K }
    {
        let mut word = self.0;
        let mut count: u32 = 0;
        for _ in 0..CODES {
            if word >> SHIFT != 0 {
                count += 1;
            }
            word <<= 8;
        }
        count
    }

    // The product: as many times as there are codes, the larger first code of the two.
    pub fn times(self, other: Monomial) -> Monomial
        ensures { result ≡ monomial_product self other }
    {
        let mut x = self.0;
        let mut y = other.0;
        let mut out: u32 = 0;
        for _ in 0..CODES {
            let c = x >> SHIFT;
            let d = y >> SHIFT;
            if d <= c {
                out = out * 256 + c;
                x <<= 8;
            } else {
                out = out * 256 + d;
                y <<= 8;
            }
        }
        Monomial(out)
    }
}
