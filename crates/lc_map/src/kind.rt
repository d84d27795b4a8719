// What a map shows.

/// What the byte of a pixel tells of the samples of the pixel.
#[derive(Clone, Copy, Debug, PartialEq, Eq)]
pub enum Kind {
    /// The greatest bound beside its estimate, on a scale that doubles every 16 bytes.
    Bound,
    /// The mean size of the cuts, beside the greatest size that a cut may have.
    Size,
    /// How many samples have a bound above the record's thousandths of the estimate.
    Missed,
}
