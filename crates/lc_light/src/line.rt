// One line of a light file.
ghost use Rattle.std.specs.Prelude.{◌≡◌, ◌+◌, ◌<◌, ◌≤◌, ◌^◌, length, Some, None, IfOk, MatchResult};
ghost use Rattle.lc_num.specs.Vectors.{Within};
ghost use Rattle.lc_scan.specs.Fields.{fields};
ghost use Rattle.lc_light.specs.Sources.{IsSource, count};
ghost use Rattle.lc_scan.specs.LineTests.{first_kind, IsAnswer};
ghost use Rattle.lc_light.specs.LightLine.{point, sun, area, source_by, source_of, area_tests, value_tests, value_count, kind_of};

use crate::area::Area;
use crate::fault_kind::FaultKind;
use crate::keyword::Keyword;
use crate::lights::{Omni, Sun};
use crate::source::Source;
use crate::values::{power, samples, side, vector};
use lc_num::{scaled, square};
use lc_scan::{Fields, count};

const MOST_LIGHTS: usize = 65_536;

fn point(values: &mut Fields) -> Result<Omni, FaultKind>
    requires { 6 ≤ length values.old }
    ensures { IsAnswer (first_kind (value_tests Keyword.Point values.old)) (point values.old) result }
{
    let place = vector(values)?;
    let power = power(values)?;
    Ok(Omni { place, power })
}

/// The sun of the values, its direction scaled.
fn sun(values: &mut Fields) -> Result<Sun, FaultKind>
    requires { 6 ≤ length values.old }
    ensures { IsAnswer (first_kind (value_tests Keyword.Sun values.old)) (sun values.old) result }
{
    let direction = vector(values)?;
    let power = power(values)?;
    if square(direction) == 0 {
        return Err(FaultKind::NoDirection);
    }
    Ok(Sun {
        toward: scaled(direction, 16_384),
        power,
    })
}

/// The area light of the values, before it is tested as a whole.
fn read_area(values: &mut Fields) -> Result<Area, FaultKind>
    requires { 13 ≤ length values.old }
    ensures value { IsAnswer (first_kind (area_tests values.old)) (area values.old) result }
    ensures range { IfOk result (λ made.
        Within 50_000_000 made.corner × Within (10 ^ 14) made.along × Within (10 ^ 14) made.across) }
{
    let corner = vector(values)?;
    let along = side(values)?;
    let across = side(values)?;
    let power = power(values)?;
    let count = samples(values)?;
    Ok(Area {
        corner,
        along,
        across,
        power,
        count,
    })
}

/// The area light of the values.
fn area(values: &mut Fields) -> Result<Area, FaultKind>
    requires { 13 ≤ length values.old }
    ensures { IsAnswer (first_kind (value_tests Keyword.Area values.old)) (area values.old) result }
{
    let area = read_area(values)?;
    if !area.has_places() {
        return Err(FaultKind::Range);
    }
    if !area.spans() {
        return Err(FaultKind::NoArea);
    }
    Ok(area)
}

/// The source of the values after a keyword.
fn source_by(keyword: Keyword, values: &mut Fields) -> Result<Source, FaultKind>
    requires { value_count keyword ≤ length values.old }
    ensures { IsAnswer (first_kind (value_tests keyword values.old)) (source_by keyword values.old) result }
{
    match keyword {
        Keyword::Point => Ok(Source::Point(point(values)?)),
        Keyword::Sun => Ok(Source::Sun(sun(values)?)),
        Keyword::Area => Ok(Source::Area(area(values)?)),
    }
}

/// The source of a line with fields, after so many lights, or the first test that the line fails.
pub fn source_in(line: &[u8], so_far: usize) -> Result<Source, FaultKind>
    requires some { 0 < length (fields line.now) }
    requires few { so_far ≤ 65536 }
    ensures value { MatchResult result
        (λ source. (kind_of so_far (fields line.now) ≡ None) × (source_of (fields line.now) ≡ Some source))
        (λ kind. kind_of so_far (fields line.now) ≡ Some kind) }
    ensures range { IfOk result IsSource }
    ensures room { IfOk result (λ source. so_far + count source ≤ 65536) }
{
    let mut values = Fields::new(line);
    let Some(keyword) = Keyword::of(values.take_field()) else {
        return Err(FaultKind::Keyword);
    };
    if count(line) != 1 + keyword.value_count() {
        return Err(FaultKind::FieldCount);
    }
    let source = source_by(keyword, &mut values)?;
    if source.count() > MOST_LIGHTS - so_far {
        return Err(FaultKind::TooMany);
    }
    Ok(source)
}
