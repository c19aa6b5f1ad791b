// The six shifts.
ghost use Rattle.std.specs.Prelude.{◌≡◌, ◌<◌, ◌≤◌, ◌*◌, ◌/◌, ◌^◌};
ghost use Rattle.word.specs.Shift.{bit_at, logical_right, arithmetic_right, rotate_right, logical_left, arithmetic_left, rotate_left, sign_changes, shift_of};

use crate::{Flagged, SIGN};

// Each kind is the base of its instruction without the last two octal digits. Kinds stay numbers, since `shift` answers for any kind.
pub const LGR: u16 = 0o404;

pub const ARS: u16 = 0o405;

pub const ARR: u16 = 0o406;

pub const LGL: u16 = 0o414;

pub const ALS: u16 = 0o415;

pub const ALR: u16 = 0o416;

// These two move A and B.
pub const LRS: u16 = 0o401;

pub const LLS: u16 = 0o411;

fn shifted_right(w: u16, amount: u16) -> u32
    requires { amount ≤ 16 }
    ensures { (result ≡ w / 2 ^ amount) × (result < 65536) }
{
    (w as u32) >> amount
}

// Not wrapped to a word.
fn shifted_left(w: u32, amount: u16) -> u32
    requires { (w < 65536) × (amount < 16) }
    ensures { (result ≡ w * 2 ^ amount) × (result ≤ 65535 * 32768) }
{
    w << amount
}

fn bit_at(w: u16, place: u16) -> bool
    requires { place ≤ 16 }
    ensures { result ≡ bit_at w place }
{
    shifted_right(w, place) % 2 == 1
}

fn logical_right(amount: u16, w: u16) -> Flagged
    requires { (1 ≤ amount) × (amount ≤ 15) }
    ensures { result ≡ logical_right amount w }
{
    let flag = bit_at(w, amount - 1);
    Flagged {
        word: shifted_right(w, amount) as u16,
        flag,
    }
}

fn arithmetic_right(amount: u16, w: u16) -> Flagged
    requires { (1 ≤ amount) × (amount ≤ 15) }
    ensures { result ≡ arithmetic_right amount w }
{
    let flag = bit_at(w, amount - 1);
    let moved = shifted_right(w, amount);
    if SIGN <= w {
        // What was moved is below the limit: the bits from there up are the copies of the sign.
        let limit = shifted_left(1, 16 - amount);
        return Flagged {
            word: ((moved + 65536 - limit) % 65536) as u16,
            flag,
        };
    }
    Flagged {
        word: moved as u16,
        flag,
    }
}

fn rotate_right(amount: u16, w: u16) -> Flagged
    requires { (1 ≤ amount) × (amount ≤ 15) }
    ensures { result ≡ rotate_right amount w }
{
    let flag = bit_at(w, amount - 1);
    let low = shifted_right(w, amount);
    let high = shifted_left(w as u32, 16 - amount);
    Flagged {
        word: ((low + high) % 65536) as u16,
        flag,
    }
}

fn logical_left(amount: u16, w: u16) -> Flagged
    requires { (1 ≤ amount) × (amount ≤ 15) }
    ensures { result ≡ logical_left amount w }
{
    let flag = bit_at(w, 16 - amount);
    let moved = shifted_left(w as u32, amount);
    Flagged {
        word: (moved % 65536) as u16,
        flag,
    }
}

// The sign changes on the way exactly if the shifted magnitude does not fit.
#[tactic(auto, using(crate::proofs::Signs::for_sign_changes))]
fn sign_changes(amount: u16, w: u16) -> bool
    requires { amount ≤ 15 }
    ensures { result ≡ sign_changes amount w }
{
    if w < SIGN {
        let magnitude = shifted_left(w as u32, amount);
        return 32768 <= magnitude;
    }
    let magnitude = shifted_left(65536 - w as u32, amount);
    32768 < magnitude
}

fn arithmetic_left(amount: u16, w: u16) -> Flagged
    requires { (1 ≤ amount) × (amount ≤ 15) }
    ensures { result ≡ arithmetic_left amount w }
{
    let flag = sign_changes(amount, w);
    let moved = shifted_left(w as u32, amount);
    Flagged {
        word: (moved % 65536) as u16,
        flag,
    }
}

fn rotate_left(amount: u16, w: u16) -> Flagged
    requires { (1 ≤ amount) × (amount ≤ 15) }
    ensures { result ≡ rotate_left amount w }
{
    let flag = bit_at(w, 16 - amount);
    let low = shifted_right(w, 16 - amount);
    let high = shifted_left(w as u32, amount);
    Flagged {
        word: ((high + low) % 65536) as u16,
        flag,
    }
}

// The word w shifted; c is C before it, and stays where nothing is shifted.
#[tactic(auto, unfolding(crate::specs::Shift::shift_of))]
pub fn shift(kind: u16, amount: u16, w: u16, c: bool) -> Flagged
    ensures { result ≡ shift_of kind amount w c }
{
    if amount < 1 || 15 < amount {
        return Flagged { word: w, flag: c };
    }
    match kind {
        LGR => logical_right(amount, w),
        ARS => arithmetic_right(amount, w),
        ARR => rotate_right(amount, w),
        LGL => logical_left(amount, w),
        ALS => arithmetic_left(amount, w),
        ALR => rotate_left(amount, w),
        _ => Flagged { word: w, flag: c },
    }
}
