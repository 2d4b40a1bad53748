// Where a list has what names answer.
ghost use Rattle.std.specs.Prelude.{◌≡◌, if◌then◌else◌, Some, None};
ghost use Rattle.run.specs.Inside.{inside0, inside1, inside2};
ghost use Rattle.run.specs.Layout.{entries as entries_of, place0, place1, place2};

use sign::NAMES;

/// How many entries a list has, of so many elements.
pub fn entries(size: u8) -> usize
    ensures { result ≡ entries_of size }
{
    let n = size as usize;
    NAMES + NAMES * n + NAMES * (n * n)
}

/// The place of a name.
pub fn place0(digit: u8) -> Option<usize>
    ensures { result ≡ (if inside0 digit then Some (place0 digit) else None) }
{
    let d = digit as usize;
    (d < NAMES).then_some(d)
}

/// The place of a name at an element.
pub fn place1(size: u8, digit: u8, a: u8) -> Option<usize>
    ensures { result ≡ (if inside1 size digit a then Some (place1 size digit a) else None) }
{
    let (n, d, a) = (size as usize, digit as usize, a as usize);
    (d < NAMES && a < n).then(|| NAMES + (d * n + a))
}

/// The place of a name at two elements.
pub fn place2(size: u8, digit: u8, a: u8, b: u8) -> Option<usize>
    ensures { result ≡ (if inside2 size digit a b then Some (place2 size digit a b) else None) }
{
    let (n, d, a, b) = (size as usize, digit as usize, a as usize, b as usize);
    (d < NAMES && a < n && b < n).then(|| NAMES + NAMES * n + ((d * n + a) * n + b))
}
