// Tests of one direction of a stream, through its public functions alone.
#![tactic(auto)]

#[cfg(test)]
mod bench;
#[cfg(test)]
mod orders;
#[cfg(test)]
mod segments;
