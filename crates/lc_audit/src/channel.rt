// The channels of light.
ghost use Rattle.std.specs.Prelude.{◌≡◌};
ghost use Rattle.lc_audit.specs.Verdicts.{channel_number, part};

use lc_num::Rgb;

/// A channel of light. The order of the channels is that of the variants.
#[derive(Clone, Copy, Debug, PartialEq, Eq)]
pub enum Channel {
    Red,
    Green,
    Blue,
}

impl Channel {
    /// The number of the channel: 0, 1 or 2.
    pub fn number(self) -> u8
        ensures { result ≡ channel_number self }
    {
        match self {
            Channel::Red => 0,
            Channel::Green => 1,
            Channel::Blue => 2,
        }
    }

    /// The channel of a radiance.
    pub(crate) fn part(self, light: Rgb) -> u128
        ensures { result ≡ part self light }
    {
        match self {
            Channel::Red => light.r,
            Channel::Green => light.g,
            Channel::Blue => light.b,
        }
    }
}
