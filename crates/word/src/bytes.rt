// The byte moves, on a word of the bytes (a,b).
ghost use Rattle.std.specs.Prelude.{◌≡◌};
ghost use Rattle.word.specs.Bytes.{ica_of, cal_of, car_of, icr_of, icl_of};

pub fn ica(w: u16) -> u16
    ensures { result ≡ ica_of w }
{
    w % 256 * 256 + w / 256
}

pub fn cal(w: u16) -> u16
    ensures { result ≡ cal_of w }
{
    w % 256
}

pub fn car(w: u16) -> u16
    ensures { result ≡ car_of w }
{
    w / 256 * 256
}

pub fn icr(w: u16) -> u16
    ensures { result ≡ icr_of w }
{
    w % 256 * 256
}

pub fn icl(w: u16) -> u16
    ensures { result ≡ icl_of w }
{
    w / 256
}
