//! Tests of the commands of `lightcuts` over a desk in memory, and of the limits of its readers.
#![tactic(auto)]

#[cfg(test)]
mod audits;
#[cfg(test)]
mod cases;
#[cfg(test)]
mod failing;
#[cfg(test)]
mod limits;
#[cfg(test)]
mod made;
#[cfg(test)]
mod probes;
#[cfg(test)]
mod renders;
#[cfg(test)]
mod shades;
