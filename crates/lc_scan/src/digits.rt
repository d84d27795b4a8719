// Digits, and the numbers that they make.
ghost use Rattle.std.specs.Prelude.{◌≡◌, ◌+◌, ◌^◌, ◌<◌, ◌≤◌, length, IsTrue, min};
ghost use Rattle.std.specs.List.{list_all};
ghost use Rattle.std.specs.Char.{is_ascii_digit};
ghost use Rattle.std.specs.Str.Parse.{digits_value, digits_value_after};
ghost use Rattle.lc_scan.specs.Whole.{are_digits};

pub fn all_digits(bytes: &[u8]) -> bool
    ensures { result ≡ list_all is_ascii_digit bytes.now }
{
    bytes.iter().all(|b| b.is_ascii_digit())
}

/// Whether the bytes are digits, and at least one.
pub fn are_digits(bytes: &[u8]) -> bool
    ensures { result ≡ are_digits bytes.now }
{
    all_digits(bytes) && !bytes.is_empty()
}

/// The number that the `before` digits of a number and these digits make.
pub fn digits_value_after(number: u128, before: usize, digits: &[u8]) -> u128
    requires digits { IsTrue (list_all is_ascii_digit digits.now) }
    requires number { number < 10 ^ before }
    requires few { before + length digits.now ≤ 30 }
    ensures value { result ≡ digits_value_after 10 number digits.now }
    ensures small { result < 10 ^ (before + length digits.now) }
{
    let mut value = number;
    for d in digits {
        value = value * 10 + u128::from(*d - b'0');
    }
    value
}

/// The number that the digits make, or 41 where it is greater.
pub fn up_to_41(digits: &[u8]) -> u32
    requires { IsTrue (list_all is_ascii_digit digits.now) }
    ensures { result ≡ min (digits_value 10 digits.now) 41 }
{
    let mut value = 0;
    for d in digits {
        value = (value * 10 + u32::from(*d - b'0')).min(41);
    }
    value
}
