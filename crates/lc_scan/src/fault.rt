// Why a field is no number.

/// Why a field is refused as a number: the first of these that holds.
#[derive(Clone, Copy, Debug, PartialEq, Eq)]
pub enum NumFault {
    /// It is not spelled as such a number.
    Form = 1,
    /// It has more than 30 digits, or an exponent above 40 in absolute value.
    TooLong = 2,
    /// The number is too large.
    Range = 3,
}
