//! Tests of the readers of texts, of records as they are written and read, and of made texts.
#![tactic(auto)]

#[cfg(test)]
mod jobs;
#[cfg(test)]
mod lights;
#[cfg(test)]
mod lines;
#[cfg(test)]
mod made;
#[cfg(test)]
mod materials;
#[cfg(test)]
mod meshes;
#[cfg(test)]
mod records;
