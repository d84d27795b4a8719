// What lines of a job file say.
use lc_num::{Name, Rule, Vec3};

/// The width and the height of a picture, in pixels.
#[derive(Clone, Copy)]
pub struct Size {
    pub width: u32,
    pub height: u32,
}

/// What a line says, by its keyword.
#[derive(Drop)]
pub enum Entry {
    Scene(Name),
    Lights(Name),
    Picture(Name),
    Bounds(Name),
    Eye(Vec3),
    At(Vec3),
    Size(Size),
    Up(Vec3),
    View(u64),
    Grid(u32),
    Seed(u64),
    Error(u32),
    Cut(u32),
    White(u64),
    Rule(Rule),
}
