//! Cameras, and the rays from them through the samples of their pictures.
#![tactic(auto)]

mod camera;
mod ray;
mod samples;

pub use camera::Camera;
pub use ray::{Ray, ray_of};
pub use samples::ray_of_sample;
