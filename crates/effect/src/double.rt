// A and B together as one signed number. Signed values that may need more than a word are given plus 2^31.
ghost use Rattle.std.specs.Prelude.{◌≡◌, ◌<◌, ◌≤◌};
ghost use Rattle.effect.specs.Double.{signed, outside, magnitude, double_of, product_of, multiply_of, undivided, divide_of, long_left_of, long_right_of};

use crate::Registers;
use word::SIGN;

// 0, given plus 2^31.
const ZERO: u32 = 2147483648;

// By the sign and the magnitude.
fn signed(minus: bool, m: u32) -> u32
    requires { m ≤ 1073741824 }
    ensures { result ≡ signed minus m }
{
    if minus { ZERO - m } else { ZERO + m }
}

// Whether a word cannot hold a signed value.
fn is_outside(n: u32) -> bool
    ensures { result ≡ outside n }
{
    !(ZERO - 32768..ZERO + 32768).contains(&n)
}

fn magnitude(w: u16) -> u32
    ensures { (result ≡ magnitude w) × (result ≤ 32768) × (0 < w → 0 < result) }
{
    if SIGN <= w {
        65536 - w as u32
    } else {
        w as u32
    }
}

fn double(r: Registers) -> u32
    ensures { (result ≡ double_of r) × (1073741824 ≤ result) × (result < 3221225472) }
{
    (word::bias(r.a) + 32768) * 32768 + r.b as u32 % 32768
}

fn product(a: u16, v: u16) -> u32
    ensures { result ≡ product_of a v }
{
    let minus = (SIGN <= a) != (SIGN <= v);
    signed(minus, magnitude(a) * magnitude(v))
}

// MPY.
#[tactic(auto, unfolding(crate::specs::Double::multiply_of))]
pub fn multiply(v: u16, r: Registers) -> Registers
    ensures { result ≡ multiply_of v r }
{
    let p = product(r.a, v);
    let a = (p / 32768 % 65536) as u16;
    let b = (p % 32768) as u16;
    Registers { a, b, ..r }
}

// Where a division cannot be done.
fn undivided(r: Registers) -> Registers
    ensures { result ≡ undivided r }
{
    Registers { c: true, ..r }
}

// DIV by v, which is not 0.
#[tactic(auto, unfolding(crate::specs::Double::divide_of))]
fn divide_by(v: u16, r: Registers) -> Registers
    requires { 0 < v }
    ensures { result ≡ divide_of v r }
{
    let n = double(r);
    let minus = n < ZERO;
    let size = if minus { ZERO - n } else { n - ZERO };
    let divisor = magnitude(v);
    let quotient = signed(minus != (SIGN <= v), size / divisor);
    if is_outside(quotient) {
        return undivided(r);
    }
    let remainder = signed(minus, size % divisor);
    let a = (quotient % 65536) as u16;
    let b = (remainder % 65536) as u16;
    Registers { a, b, c: false }
}

// DIV.
#[tactic(auto, unfolding(crate::specs::Double::divide_of))]
pub fn divide(v: u16, r: Registers) -> Registers
    ensures { result ≡ divide_of v r }
{
    if v == 0 {
        return undivided(r);
    }
    divide_by(v, r)
}

// LLS by 15.
#[tactic(auto, unfolding(crate::specs::Double::long_left_of))]
pub fn long_left(r: Registers) -> Registers
    ensures { result ≡ long_left_of r }
{
    let n = double(r);
    let a = (n % 65536) as u16;
    let c = is_outside(n);
    Registers { a, b: 0, c }
}

// LRS by 15.
#[tactic(auto, unfolding(crate::specs::Double::long_right_of))]
pub fn long_right(r: Registers) -> Registers
    ensures { result ≡ long_right_of r }
{
    Registers {
        a: if SIGN <= r.a { 65535 } else { 0 },
        b: r.a % 32768,
        ..r
    }
}
