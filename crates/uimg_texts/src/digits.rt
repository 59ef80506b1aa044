//! Two decimal digits.

ghost use Rattle.std.specs.Prelude.{◌≡◌, ◌<◌};
ghost use Rattle.uimg_texts.specs.Digits.{two_digits};

/// Returns a number below 100 as two decimal digits, with a leading zero below 10.
pub fn two_digits(n: u8) -> [u8; 2]
    requires { n < 100 }
    ensures { result ≡ two_digits n }
{
    [b'0' + n / 10, b'0' + n % 10]
}
