// One number for each of the channels red, green and blue.

/// A radiance, or an estimate or a bound of one: a whole number per channel, before it is scaled down for the eye.
#[derive(Clone, Copy, Debug, PartialEq, Eq)]
pub struct Rgb {
    pub r: u128,
    pub g: u128,
    pub b: u128,
}

impl Rgb {
    /// No light in any channel.
    pub const BLACK: Rgb = Rgb { r: 0, g: 0, b: 0 };
}

/// The intensity of a light per channel, in units of 1/10000.
#[derive(Clone, Copy, Debug, PartialEq, Eq)]
pub struct Power {
    pub r: u64,
    pub g: u64,
    pub b: u64,
}

/// The share of light that a surface sends back per channel, in units of 1/10000.
#[derive(Clone, Copy, Debug, PartialEq, Eq)]
pub struct Colour {
    pub r: u32,
    pub g: u32,
    pub b: u32,
}

impl Colour {
    /// No share in any channel.
    pub const BLACK: Colour = Colour { r: 0, g: 0, b: 0 };
}
