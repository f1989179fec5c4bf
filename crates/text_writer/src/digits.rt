//! A number in decimal.

ghost use Rattle.std.specs.Prelude.{◌≡◌, ◌≤◌, ◌<◌, ◌∷◌, drop, decimal};

/// How long a mark and a number of 64 bits are at most.
pub const LONGEST: usize = 21;

/// Puts a mark and the decimal digits of a number at the end of the place, and answers where they begin.
pub fn put_digits(mark: u8, number: u64, place: &mut [u8; LONGEST]) -> usize
    ensures within { result ≤ 21 }
    ensures digits { drop result place.new ≡ mark ∷ decimal number }
{
    let mut start = LONGEST - 1;
    let mut left = number;
    while left >= 10 {
        place[start] = b'0' + (left % 10) as u8;
        left /= 10;
        start -= 1;
    }
    place[start] = b'0' + left as u8;
    place[start - 1] = mark;
    start - 1
}
