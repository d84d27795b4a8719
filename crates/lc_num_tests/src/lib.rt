//! Tests of numbers and vectors, of the words of streams, of heaps, triangles, cameras and tones.
#![tactic(auto)]

#[cfg(test)]
mod cameras;
#[cfg(test)]
mod heaps;
#[cfg(test)]
mod numbers;
#[cfg(test)]
mod tones;
#[cfg(test)]
mod triangles;
#[cfg(test)]
mod words;
