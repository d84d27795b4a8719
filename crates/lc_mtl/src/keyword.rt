// The keywords of lines.
ghost use Rattle.std.specs.Prelude.{◌≡◌};
ghost use Rattle.lc_mtl.specs.MtlLine.{keyword_of};

use lc_scan::look_up;

/// The first field of a line that is read. Lines of all other keywords are passed over.
#[derive(Clone, Copy)]
pub enum Keyword {
    Material,
    Diffuse,
    Specular,
    Exponent,
}

/// The keywords, each with its word.
const KEYWORDS: [(&[u8], Keyword); 4] = [
    (b"newmtl", Keyword::Material),
    (b"Kd", Keyword::Diffuse),
    (b"Ks", Keyword::Specular),
    (b"Ns", Keyword::Exponent),
];

impl Keyword {
    /// The keyword that a field is, if it is one that is read.
    #[tactic(auto, unfolding(crate::specs::MtlLine::keyword_of))]
    pub fn of(field: &[u8]) -> Option<Keyword>
        ensures { result ≡ keyword_of field.now }
    {
        look_up(&KEYWORDS, field)
    }
}
