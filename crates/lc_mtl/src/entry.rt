// What lines of a material library say.
use lc_num::Colour;

/// What a line says of the material in force.
#[derive(Clone, Copy)]
pub enum Setting {
    Diffuse(Colour),
    Specular(Colour),
    Exponent(u32),
}

/// What a line says. The name of a material that it begins is its rest.
#[derive(Clone, Copy)]
pub enum Entry {
    Begin,
    Set(Setting),
}
