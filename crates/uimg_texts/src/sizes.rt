//! A size in hundredths of a unit, rounded to the nearest.

ghost use Rattle.std.specs.Prelude.{◌≡◌, ◌<◌, IsTrue};
ghost use Rattle.uimg_texts.specs.Sizes.{is_nearest, hundredths};

/// Returns a number in hundredths of a unit that is not 0, rounded to the nearest, ties to even
/// (IEEE 754, section 4.3.1).
pub fn hundredths(number: u32, unit: u32) -> u64
    requires { 0 < unit }
    ensures value { result ≡ hundredths number unit }
    ensures nearest { IsTrue (is_nearest number unit result) }
{
    let scaled = 100 * number as u64;
    let unit = unit as u64;
    let whole = scaled / unit;
    let twice_rest = 2 * (scaled % unit);
    if twice_rest == unit {
        whole + whole % 2
    } else if twice_rest > unit {
        whole + 1
    } else {
        whole
    }
}
