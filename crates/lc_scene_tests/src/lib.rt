//! Tests of the factors and bounds of lights, of their trees and cuts, of the samples of scenes and of audits.
#![tactic(auto)]

#[cfg(test)]
mod audits;
#[cfg(test)]
mod cuts;
#[cfg(test)]
mod factors;
#[cfg(test)]
mod lamps;
#[cfg(test)]
mod lights;
#[cfg(test)]
mod oriented;
#[cfg(test)]
mod samples;
#[cfg(test)]
mod suns;
#[cfg(test)]
mod trees;
