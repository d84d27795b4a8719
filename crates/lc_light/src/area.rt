// Area lights, and the samples that they become.
ghost use Rattle.std.specs.Prelude.{◌≡◌, ◌++◌, ◌<◌, ◌≤◌, ◌^◌, ◌+ℤ◌, ℕ, sum_by, OnOk, unsigned_abs};
ghost use Rattle.std.specs.List.{range_with_len};
ghost use Rattle.lc_num.specs.Vectors.{Within};
ghost use Rattle.lc_light.specs.Areas.{AddsUp, IsArea, coordinate_by, has_places, moved, normal, numbered, part, place_by, power_share, sample, samples_from, share, spans};
ghost use Rattle.lc_words.specs.Words.{after, word_of};

use crate::lights::Oriented;
use lc_num::{List, Memory, Power, Vec3, cross, scaled, square};
use lc_scan::is_place;
use lc_words::Stream;

/// A light that shines from the parallelogram of two sides at a corner, until it is taken apart into samples. It shines
/// to the side of `along x across`.
#[derive(Clone, Copy)]
pub struct Area {
    pub corner: Vec3,
    pub along: Vec3,
    pub across: Vec3,
    pub power: Power,
    pub count: u32,
}

fn shifted(at: i64, by: i64) -> i64
    requires at { unsigned_abs at ≤ 2 ^ 60 }
    requires by { unsigned_abs by ≤ 2 ^ 60 }
    ensures { result ≡ at +ℤ by }
{
    at + by
}

fn moved(place: Vec3, by: Vec3) -> Vec3
    requires place { Within (2 ^ 50) place }
    requires by { Within (2 ^ 50) by }
    ensures value { result ≡ moved place by }
{
    Vec3 {
        x: shifted(place.x, by.x),
        y: shifted(place.y, by.y),
        z: shifted(place.z, by.z),
    }
}

/// `side * w / 65536`, rounded down.
fn part(side: i64, w: u32) -> i64
    requires side { unsigned_abs side ≤ 100_000_000 }
    requires w { w < 65536 }
    ensures { result ≡ part side w }
{
    (side * i64::from(w)).div_euclid(65_536)
}

/// A coordinate of the place that a word picks, by those of the corner and the two sides.
fn coordinate_by(word: u32, corner: i64, along: i64, across: i64) -> i64
    requires corner { unsigned_abs corner ≤ 50_000_000 }
    requires along { unsigned_abs along ≤ 100_000_000 }
    requires across { unsigned_abs across ≤ 100_000_000 }
    ensures { result ≡ coordinate_by word corner along across }
{
    corner + part(along, word % 65_536) + part(across, word / 65_536)
}

/// Share `number` of an intensity that is shared out to `count` samples, as evenly as units allow.
fn share(intensity: u64, count: u32, number: u32) -> u64
    requires intensity { intensity ≤ 100_000_000 }
    requires count { 0 < count }
    ensures { result ≡ share intensity count number }
{
    let count = u64::from(count);
    let more = if u64::from(number) < intensity % count {
        1
    } else {
        0
    };
    intensity / count + more
}

impl Area {
    /// Whether the three corners besides the first have coordinates in their range.
    pub fn has_places(&self) -> bool
        requires corner { Within 50_000_000 self.now.corner }
        requires along { Within (10 ^ 14) self.now.along }
        requires across { Within (10 ^ 14) self.now.across }
        ensures { result ≡ has_places self.now }
    {
        let along_end = moved(self.corner, self.along);
        is_place(along_end)
            && is_place(moved(self.corner, self.across))
            && is_place(moved(along_end, self.across))
    }

    /// Whether the two sides span an area.
    pub fn spans(&self) -> bool
        requires along { Within 100_000_000 self.now.along }
        requires across { Within 100_000_000 self.now.across }
        ensures { result ≡ spans self.now }
    {
        square(cross(self.along, self.across)) > 0
    }

    /// The normal, 16384 long, to the side to which the area shines.
    fn normal(&self) -> Vec3
        requires { IsArea self.now }
        ensures { result ≡ normal self.now }
    {
        scaled(cross(self.along, self.across), 16_384)
    }

    /// The place on the area that a word picks.
    fn place_by(&self, word: u32) -> Vec3
        requires { IsArea self.now }
        ensures { result ≡ place_by word self.now }
    {
        Vec3 {
            x: coordinate_by(word, self.corner.x, self.along.x, self.across.x),
            y: coordinate_by(word, self.corner.y, self.along.y, self.across.y),
            z: coordinate_by(word, self.corner.z, self.along.z, self.across.z),
        }
    }

    /// The intensity of sample `number`.
    fn power_share(&self, number: u32) -> Power
        requires { IsArea self.now }
        ensures { result ≡ power_share self.now.power self.now.count number }
    {
        Power {
            r: share(self.power.r, self.count, number),
            g: share(self.power.g, self.count, number),
            b: share(self.power.b, self.count, number),
        }
    }

    /// Adds the oriented lights of the samples, each by the next word.
    pub fn add_samples(
        &self,
        oriented: &mut List<Oriented>,
        words: &mut Stream,
    ) -> Result<(), Memory>
        requires { IsArea self.now }
        ensures lights { OnOk result (oriented.new
            ≡ oriented.old ++ samples_from (word_of words.old) 0 (numbered self.now)) }
        ensures words { OnOk result (words.new ≡ after words.old self.now.count) }
    {
        let normal = self.normal();
        for number in 0..self.count {
            let place = self.place_by(words.next_word());
            let power = self.power_share(number);
            oriented.push(Oriented {
                place,
                normal,
                power,
            })?;
        }
        Ok(())
    }
}

/// The shares of an intensity add up to it, and so do the intensities of the samples of an area light, in each channel,
/// whatever words give them their places.
pub fn area_powers_add_up()
    ensures shares { (intensity n : ℕ) → 1 ≤ n → sum_by (λ k. share intensity n k) (range_with_len 0 n) ≡ intensity }
    ensures red { AddsUp (λ power. power.r) }
    ensures green { AddsUp (λ power. power.g) }
    ensures blue { AddsUp (λ power. power.b) }
{}
