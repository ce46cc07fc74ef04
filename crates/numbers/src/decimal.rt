// The shortest decimal of a number, at the end of a buffer: it is written from its last digit, which comes first.
ghost use Rattle.std.specs.Prelude.{pos};
ghost use Rattle.numbers.specs.inner.Buffers.{AtTheEnd};
ghost use Rattle.numbers.specs.Numbers.{decimal};

use super::arith::distance;

// The digits of n, of which the largest has 20; the answer is the place of the first.
// The number ends the loop: `for at in (0..20).rev()` would return from its middle, and have an end that is never reached.
pub fn put_digits(n: u64, buffer: &mut [u8; 20]) -> usize
    ensures { AtTheEnd (decimal (pos n)) buffer.old buffer.new result }
{
    let mut rest = n;
    let mut at = buffer.len();
    while 10 <= rest {
        at -= 1;
        buffer[at] = b'0' + (rest % 10) as u8;
        rest /= 10;
    }
    at -= 1;
    buffer[at] = b'0' + rest as u8;
    at
}

// The digits of v, with `-` before them below zero; the answer is the place of the first byte.
pub fn put_decimal(v: i32, buffer: &mut [u8; 20]) -> usize
    ensures { AtTheEnd (decimal v) buffer.old buffer.new result }
{
    let at = put_digits(u64::from(distance(v)), buffer);
    if v < 0 {
        let sign = at - 1;
        buffer[sign] = b'-';
        return sign;
    }
    at
}
