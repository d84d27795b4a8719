// A job that is being read.
ghost use Rattle.std.specs.Prelude.{◌≡◌, Some, None, MatchResult};
ghost use Rattle.lc_job.specs.Drafts.{has, made, missing_in, nothing_said, taken};

use crate::entry::{Entry, Size};
use crate::job::Job;
use crate::key::Key;
use lc_num::{Name, Rule, Vec3};
use lc_view::Camera;

/// What the lines of a job file say, by their keywords.
#[derive(Drop)]
pub struct Draft {
    pub scene: Option<Name>,
    pub lights: Option<Name>,
    pub picture: Option<Name>,
    pub bounds: Option<Name>,
    pub eye: Option<Vec3>,
    pub at: Option<Vec3>,
    pub size: Option<Size>,
    pub up: Option<Vec3>,
    pub view: Option<u64>,
    pub grid: Option<u32>,
    pub seed: Option<u64>,
    pub error: Option<u32>,
    pub cut: Option<u32>,
    pub white: Option<u64>,
    pub rule: Option<Rule>,
}

// A unit in 1/10000.
const UNIT: i64 = 10_000;

impl Draft {
    /// The draft of no lines.
    pub fn new() -> Draft
        ensures { result ≡ nothing_said }
    {
        Draft {
            scene: None,
            lights: None,
            picture: None,
            bounds: None,
            eye: None,
            at: None,
            size: None,
            up: None,
            view: None,
            grid: None,
            seed: None,
            error: None,
            cut: None,
            white: None,
            rule: None,
        }
    }

    /// Whether a line of this keyword stood before.
    pub fn has(&self, key: Key) -> bool
        ensures { result ≡ has key self.now }
    {
        match key {
            Key::Scene => self.scene.is_some(),
            Key::Lights => self.lights.is_some(),
            Key::Picture => self.picture.is_some(),
            Key::Bounds => self.bounds.is_some(),
            Key::Eye => self.eye.is_some(),
            Key::At => self.at.is_some(),
            Key::Size => self.size.is_some(),
            Key::Up => self.up.is_some(),
            Key::View => self.view.is_some(),
            Key::Grid => self.grid.is_some(),
            Key::Seed => self.seed.is_some(),
            Key::Error => self.error.is_some(),
            Key::Cut => self.cut.is_some(),
            Key::White => self.white.is_some(),
            Key::Rule => self.rule.is_some(),
        }
    }

    /// Takes what a line says.
    pub fn take(&mut self, entry: Entry)
        ensures { self.new ≡ taken entry self.old }
    {
        match entry {
            Entry::Scene(name) => self.scene = Some(name),
            Entry::Lights(name) => self.lights = Some(name),
            Entry::Picture(name) => self.picture = Some(name),
            Entry::Bounds(name) => self.bounds = Some(name),
            Entry::Eye(place) => self.eye = Some(place),
            Entry::At(place) => self.at = Some(place),
            Entry::Size(size) => self.size = Some(size),
            Entry::Up(direction) => self.up = Some(direction),
            Entry::View(units) => self.view = Some(units),
            Entry::Grid(side) => self.grid = Some(side),
            Entry::Seed(seed) => self.seed = Some(seed),
            Entry::Error(permille) => self.error = Some(permille),
            Entry::Cut(most) => self.cut = Some(most),
            Entry::White(units) => self.white = Some(units),
            Entry::Rule(rule) => self.rule = Some(rule),
        }
    }

    /// The job, or the first keyword that is missing.
    pub fn finish(self) -> Result<Job, Key>
        ensures { MatchResult result
            (λ job. (missing_in self ≡ None) × (job ≡ made self))
            (λ key. missing_in self ≡ Some key) }
    {
        let scene = self.scene.ok_or(Key::Scene)?;
        let lights = self.lights.ok_or(Key::Lights)?;
        let picture = self.picture.ok_or(Key::Picture)?;
        let bounds = self.bounds.ok_or(Key::Bounds)?;
        let eye = self.eye.ok_or(Key::Eye)?;
        let at = self.at.ok_or(Key::At)?;
        let size = self.size.ok_or(Key::Size)?;
        Ok(Job {
            scene,
            lights,
            picture,
            bounds,
            camera: Camera {
                eye,
                at,
                up: self.up.unwrap_or(Vec3 {
                    x: 0,
                    y: UNIT,
                    z: 0,
                }),
                view: self.view.unwrap_or(5_000),
                width: size.width,
                height: size.height,
                grid: self.grid.unwrap_or(1),
            },
            seed: self.seed.unwrap_or(0),
            permille: self.error.unwrap_or(20),
            cut: self.cut.unwrap_or(1_000),
            white: self.white.unwrap_or(10_000),
            rule: self.rule.unwrap_or(Rule::One),
        })
    }
}
