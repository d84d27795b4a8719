// One line of a material library.
ghost use Rattle.std.specs.Prelude.{◌≡◌, ◌+◌, ◌≤◌, [], ◌∷◌, Some, None};
ghost use Rattle.lc_scan.specs.Fields.{fields, rest};
ghost use Rattle.lc_mtl.specs.Settings.{grey};
ghost use Rattle.lc_scan.specs.LineTests.{first_kind, IsAnswer, IsTested};
ghost use Rattle.lc_mtl.specs.MtlLine.{begun_test, name_test, room_test, form_test, number_test, colour_tests, exponent_tests, tests, share, colour, exponent, entry_by, entry_of, kind_of};

use crate::entry::{Entry, Setting};
use crate::fault_kind::FaultKind;
use crate::keyword::Keyword;
use crate::material::grey;
use crate::numbers::{nearest_exponent, share};
use lc_num::Colour;
use lc_scan::{Fields, rest};

const MOST_MATERIALS: usize = 4_096;

/// Whether a material can begin that has this name, after so many.
fn test_begin(name: &[u8], so_far: usize) -> Result<(), FaultKind>
    ensures { IsTested (first_kind (name_test name.now ∷ room_test so_far ∷ [])) result }
{
    if name.is_empty() {
        return Err(FaultKind::Name);
    }
    if so_far >= MOST_MATERIALS {
        return Err(FaultKind::TooMany);
    }
    Ok(())
}

fn test_begun(begun: usize) -> Result<(), FaultKind>
    ensures { IsTested (begun_test begun) result }
{
    if begun == 0 {
        return Err(FaultKind::NoMaterial);
    }
    Ok(())
}

fn test_form(value: &[u8]) -> Result<(), FaultKind>
    ensures { IsTested (form_test value.now) result }
{
    if value == b"spectral".as_slice() || value == b"xyz".as_slice() {
        return Err(FaultKind::Colour);
    }
    Ok(())
}

fn one_share(all: &[u8]) -> Result<Colour, FaultKind>
    ensures { IsAnswer (first_kind (form_test all.now ∷ number_test all.now ∷ [])) (grey (share all.now)) result }
{
    test_form(all)?;
    let share = share(all)?;
    Ok(grey(share))
}

fn three_shares(red: &[u8], green: &[u8], blue: &[u8]) -> Result<Colour, FaultKind>
    ensures { IsAnswer
        (first_kind (form_test red.now ∷ number_test red.now ∷ number_test green.now ∷ number_test blue.now ∷ []))
        (record { r = share red.now; g = share green.now; b = share blue.now }) result }
{
    test_form(red)?;
    let r = share(red)?;
    let g = share(green)?;
    let b = share(blue)?;
    Ok(Colour { r, g, b })
}

/// The colour of the values of a line: one share for all channels, or three.
fn colour(values: &mut Fields) -> Result<Colour, FaultKind>
    ensures { IsAnswer (first_kind (colour_tests values.old)) (colour values.old) result }
{
    let Some(first) = values.next_field() else {
        return Err(FaultKind::Colour);
    };
    let Some(second) = values.next_field() else {
        return one_share(first);
    };
    let Some(third) = values.next_field() else {
        return Err(FaultKind::Colour);
    };
    three_shares(first, second, third)
}

/// The exponent of the values of a line.
fn exponent(values: &mut Fields) -> Result<u32, FaultKind>
    ensures { IsAnswer (first_kind (exponent_tests values.old)) (exponent values.old) result }
{
    let Some(value) = values.next_field() else {
        return Err(FaultKind::Number);
    };
    nearest_exponent(value)
}

/// What the values after a keyword say.
fn entry_by(
    keyword: Keyword,
    name: &[u8],
    values: &mut Fields,
    held: usize,
    begun: usize,
) -> Result<Entry, FaultKind>
    requires { held + begun ≤ 4096 }
    ensures { IsAnswer (first_kind (tests held begun keyword name.now values.old))
        (entry_by keyword values.old) result }
{
    match keyword {
        Keyword::Material => {
            test_begin(name, held + begun)?;
            Ok(Entry::Begin)
        }
        Keyword::Diffuse => {
            test_begun(begun)?;
            let kd = colour(values)?;
            Ok(Entry::Set(Setting::Diffuse(kd)))
        }
        Keyword::Specular => {
            test_begun(begun)?;
            let ks = colour(values)?;
            Ok(Entry::Set(Setting::Specular(ks)))
        }
        Keyword::Exponent => {
            test_begun(begun)?;
            let ns = exponent(values)?;
            Ok(Entry::Set(Setting::Exponent(ns)))
        }
    }
}

/// What a line says, or the first test that it fails: `held` materials stood before the text, and `begun` begin in it
/// before the line. It says nothing where its keyword is passed over.
#[tactic(auto, unfolding(crate::specs::MtlLine::kind_of, crate::specs::MtlLine::entry_of))]
pub fn entry_in(line: &[u8], held: usize, begun: usize) -> Result<Option<Entry>, FaultKind>
    requires { held + begun ≤ 4096 }
    ensures { IsAnswer (kind_of held begun (rest line.now) (fields line.now)) (entry_of (fields line.now)) result }
{
    let mut values = Fields::new(line);
    let Some(word) = values.next_field() else {
        return Ok(None);
    };
    let Some(keyword) = Keyword::of(word) else {
        return Ok(None);
    };
    let entry = entry_by(keyword, rest(line), &mut values, held, begun)?;
    Ok(Some(entry))
}
