//! Scenes, the spots that rays find in them, and the light at a ray.
#![tactic(auto)]

mod laws;
mod normal;
mod plain;
mod sampling;
mod scene;
mod spot;
mod surface;

pub use laws::sampled_light;
pub use plain::plain_sample;
pub use sampling::{sample, spot_seen};
pub use scene::Scene;
pub use spot::spot_of;
pub use surface::{Reflectance, Surface};
