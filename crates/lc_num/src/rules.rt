// The rules by which bounds are found.
ghost use Rattle.std.specs.Prelude.{◌≡◌};
ghost use Rattle.lc_num.specs.Rules.{rule_number, rule_of};

/// The rule by which the bounds of clusters of lights are found.
#[derive(Clone, Copy, Debug, PartialEq, Eq)]
pub enum Rule {
    /// A cosine is bounded by the greatest dot product over a box, and the bound of a cluster is the most that it can
    /// give (Lightcuts 2005).
    One,
    /// A cosine is bounded by the least cross product over a box as well, and the bound of a cluster is the greater
    /// of its estimate and of what the estimate leaves of the most that it can give.
    Two,
}

impl Rule {
    /// The number of the rule: 1 or 2.
    pub fn number(self) -> u8
        ensures { result ≡ rule_number self }
    {
        match self {
            Rule::One => 1,
            Rule::Two => 2,
        }
    }

    /// The rule of a number, if there is one.
    pub fn of(number: u64) -> Option<Rule>
        ensures { result ≡ rule_of number }
    {
        match number {
            1 => Some(Rule::One),
            2 => Some(Rule::Two),
            _ => None,
        }
    }
}
