// Jobs.
use lc_num::{Name, Rule};
use lc_view::Camera;

/// What is to be rendered, from where, how exactly and into which files.
#[derive(Debug, Drop)]
pub struct Job {
    /// The file of the scene.
    pub scene: Name,
    /// The file of the lights.
    pub lights: Name,
    /// The file into which the picture goes.
    pub picture: Name,
    /// The file into which the record of the samples goes.
    pub bounds: Name,
    pub camera: Camera,
    /// The seed of the words by which the samples of area lights get their places and clusters their representatives.
    pub seed: u64,
    /// How many thousandths of its estimate the bound of a cut may be, at most 1000.
    pub permille: u32,
    /// The greatest size of a cut: from 3 to 65,536.
    pub cut: u32,
    /// The white point of the picture, in units of 1/10000: from 1 to 100,000,000.
    pub white: u64,
    /// The rule by which the bounds of clusters are found.
    pub rule: Rule,
}
