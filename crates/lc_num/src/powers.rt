// Powers of cosines.
ghost use Rattle.std.specs.Prelude.{◌≡◌, ◌+◌, ◌*◌, ◌/◌, ◌%◌, ◌<◌, ◌≤◌, ◌==◌, ◌^◌, ℕ};
ghost use Rattle.lc_num.specs.Powers.{pow16, with_digit};

/// The power of an exponent with one binary digit more.
fn with_digit(c: u64, digit: u32, power: u64) -> u64
    requires cosine { c ≤ 65536 }
    requires power { power ≤ 65536 }
    ensures value { result ≡ with_digit c digit power }
    ensures most { result ≤ 65536 }
{
    let square = power * power / 65536;
    if digit == 0 {
        square
    } else {
        c * square / 65536
    }
}

/// A power of a cosine in 1/65536, as a highlight has it (Phong): by squares from the first binary digit of the
/// exponent, each product rounded down. The cosine is at most 65536.
pub fn pow16(c: u32, e: u32) -> u32
    requires cosine { c ≤ 65536 }
    ensures value { result ≡ pow16 c e }
    ensures most { result ≤ 65536 }
{
    if e == 0 {
        return 65536;
    }
    let mut power = c as u64;
    let mut place = e.ilog2();
    while place > 0 {
        place -= 1;
        power = with_digit(c as u64, (e >> place) % 2, power);
    }
    power as u32
}

/// What powers are, by the definition alone: that of twice an exponent is the square, and one more is once more the
/// cosine, each product rounded down; a greater cosine has no smaller power. The function does nothing: it states
/// laws by its contract.
pub fn powers_by_squares()
    ensures none { (c : ℕ) → pow16 c 0 ≡ 65536 }
    ensures even { (c m : ℕ) → pow16 c (2 * m) ≡ pow16 c m * pow16 c m / 65536 }
    ensures odd { (c m : ℕ) → pow16 c (2 * m + 1) ≡ c * pow16 c (2 * m) / 65536 }
    ensures rises { (c d e : ℕ) → c ≤ d → pow16 c e ≤ pow16 d e }
    ensures most { (c e : ℕ) → c ≤ 65536 → pow16 c e ≤ 65536 }
{}
