// The keywords of lines.
ghost use Rattle.std.specs.Prelude.{◌≡◌};
ghost use Rattle.lc_obj.specs.Keywords.{keyword_of};

use lc_scan::look_up;

/// The first field of a line, which says what the line gives.
#[derive(Clone, Copy)]
pub enum Keyword {
    /// `v`, a place.
    Place,
    /// `vt`, a texture place.
    Uv,
    /// `vn`, a normal.
    Normal,
    /// `f`, a face.
    Face,
    /// `usemtl`, the material of the faces that follow.
    Use,
    /// `mtllib`, libraries of materials.
    Library,
    /// A part of a free-form curve or surface.
    FreeForm,
    /// Any other, which is passed over.
    Other,
}

/// The keywords of lines that are not passed over, each with its word.
const KEYWORDS: [(&[u8], Keyword); 21] = [
    (b"v", Keyword::Place),
    (b"vt", Keyword::Uv),
    (b"vn", Keyword::Normal),
    (b"f", Keyword::Face),
    (b"usemtl", Keyword::Use),
    (b"mtllib", Keyword::Library),
    (b"vp", Keyword::FreeForm),
    (b"cstype", Keyword::FreeForm),
    (b"deg", Keyword::FreeForm),
    (b"bmat", Keyword::FreeForm),
    (b"step", Keyword::FreeForm),
    (b"curv", Keyword::FreeForm),
    (b"curv2", Keyword::FreeForm),
    (b"surf", Keyword::FreeForm),
    (b"parm", Keyword::FreeForm),
    (b"trim", Keyword::FreeForm),
    (b"hole", Keyword::FreeForm),
    (b"scrv", Keyword::FreeForm),
    (b"sp", Keyword::FreeForm),
    (b"end", Keyword::FreeForm),
    (b"con", Keyword::FreeForm),
];

impl Keyword {
    #[tactic(auto, unfolding(crate::specs::Keywords::keyword_of))]
    pub fn of(word: &[u8]) -> Keyword
        ensures { result ≡ keyword_of word.now }
    {
        look_up(&KEYWORDS, word).unwrap_or(Keyword::Other)
    }
}
