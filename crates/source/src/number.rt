// Numbers in figures. They are held up to a cap above every limit, so that any number of digits fits.
ghost use Rattle.std.specs.Prelude.{◌≡◌, ◌+◌, ◌-◌, ◌*◌, ◌≤◌, ◌<◌, min};
ghost use Rattle.source.specs.Tokens.{number};

const CAP: u32 = 65536;

// A number with one digit more.
fn grown(n: u32, base: u32, b: u8) -> u32
    requires { (n ≤ 65536) × (base ≤ 10) }
    ensures { result ≡ min (base * n + (b - 48)) 65536 }
{
    (base * n + u32::from(b.saturating_sub(b'0'))).min(CAP)
}

/// The number that digits are.
#[tactic(auto, using(crate::proofs::Numbers::for_number_of))]
pub fn number_of(digits: &[u8], base: u32) -> u32
    requires { (0 < base) × (base ≤ 10) }
    ensures { (result ≡ min (number base 0 digits.now) 65536) × (result ≤ 65536) }
{
    let mut n = 0;
    for &b in digits {
        n = grown(n, base, b);
    }
    n
}
