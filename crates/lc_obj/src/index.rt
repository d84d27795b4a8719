// The indices of a corner.
ghost use Rattle.std.specs.Prelude.{◌≡◌, ◌<◌, [], ◌∷◌, Some, None, MatchOption, MatchResult, position};
ghost use Rattle.std.specs.List.{slice_split};
ghost use Rattle.lc_obj.specs.Corners.{digits, index_of, index_test, indices_of, is_back, is_slash, place_of};

use crate::fault_kind::FaultKind;
use lc_scan::whole;

/// An index as it is spelled: its number, and whether it counts from the end.
#[derive(Clone, Copy)]
pub struct Index {
    pub back: bool,
    pub size: u64,
}

/// The indices of a corner: of its place, and of its texture place and its normal where it names them.
#[derive(Clone, Copy)]
pub struct Indices {
    pub place: Index,
    pub uv: Option<Index>,
    pub normal: Option<Index>,
}

/// Whether a minus stands in front, and what stands after it.
fn around_minus(part: &[u8]) -> (bool, &[u8])
    ensures back { result.0 ≡ is_back part.now }
    ensures digits { result.1.now ≡ digits part.now }
{
    match part {
        [b'-', rest @ ..] => (true, rest),
        _ => (false, part),
    }
}

fn first_slash(text: &[u8]) -> Option<usize>
    ensures { result ≡ position is_slash text.now }
{
    text.iter().position(|&b| b == b'/')
}

/// What stands before the first slash, and what stands after it, if there is one.
fn first_part(text: &[u8]) -> (&[u8], Option<&[u8]>)
    ensures { MatchOption result.1
        (slice_split is_slash text.now ≡ result.0.now ∷ [])
        (λ rest. slice_split is_slash text.now ≡ result.0.now ∷ slice_split is_slash rest.now) }
{
    match first_slash(text) {
        None => (text, None),
        Some(at) => (&text[..at], Some(&text[at + 1..])),
    }
}

impl Index {
    /// The index that a part of a corner spells.
    #[tactic(auto, unfolding(crate::specs::Corners::index_of))]
    fn of(part: &[u8]) -> Option<Index>
        ensures { result ≡ index_of part.now }
    {
        let (back, digits) = around_minus(part);
        match whole(digits) {
            Ok(size) => Some(Index { back, size }),
            Err(_) => None,
        }
    }

    /// The place of the item that the index names among so many.
    pub fn among(self, given: usize) -> Result<usize, FaultKind>
        ensures { MatchResult result
            (λ at. (index_test given self ≡ None) × (place_of given self ≡ at) × (at < given))
            (λ kind. index_test given self ≡ Some kind) }
    {
        if self.size == 0 {
            return Err(FaultKind::IndexZero);
        }
        if self.size > given as u64 {
            return Err(FaultKind::Index);
        }
        let size = self.size as usize;
        if self.back {
            Ok(given - size)
        } else {
            Ok(size - 1)
        }
    }
}

impl Indices {
    /// The indices of a corner, where it has one of the forms `v`, `v/vt`, `v//vn` and `v/vt/vn`.
    #[tactic(auto, unfolding(crate::specs::Corners::indices_of))]
    pub fn of(corner: &[u8]) -> Option<Indices>
        ensures { result ≡ indices_of corner.now }
    {
        let (place, rest) = first_part(corner);
        let place = Index::of(place)?;
        let Some(rest) = rest else {
            return Some(Indices {
                place,
                uv: None,
                normal: None,
            });
        };
        let (uv, rest) = first_part(rest);
        let Some(rest) = rest else {
            let uv = Some(Index::of(uv)?);
            return Some(Indices {
                place,
                uv,
                normal: None,
            });
        };
        let (normal, rest) = first_part(rest);
        let None = rest else {
            return None;
        };
        let normal = Some(Index::of(normal)?);
        if uv.is_empty() {
            return Some(Indices {
                place,
                uv: None,
                normal,
            });
        }
        let uv = Some(Index::of(uv)?);
        Some(Indices { place, uv, normal })
    }
}
