// The keywords of lines.
ghost use Rattle.std.specs.Prelude.{◌≡◌};
ghost use Rattle.lc_light.specs.LightLine.{keyword_of, value_count};

use lc_scan::look_up;

/// The first field of a line, which says what source of light the line names.
#[derive(Clone, Copy)]
pub enum Keyword {
    Point,
    Sun,
    Area,
}

/// The keywords, each with its word.
const KEYWORDS: [(&[u8], Keyword); 3] = [
    (b"point", Keyword::Point),
    (b"sun", Keyword::Sun),
    (b"area", Keyword::Area),
];

impl Keyword {
    /// The keyword that a field is, if it is one.
    #[tactic(auto, unfolding(crate::specs::LightLine::keyword_of))]
    pub fn of(field: &[u8]) -> Option<Keyword>
        ensures { result ≡ keyword_of field.now }
    {
        look_up(&KEYWORDS, field)
    }

    /// How many fields stand after the keyword.
    pub fn value_count(self) -> usize
        ensures { result ≡ value_count self }
    {
        match self {
            Keyword::Point | Keyword::Sun => 6,
            Keyword::Area => 13,
        }
    }
}
