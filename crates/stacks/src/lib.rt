// Tests of overlays: their limits and ends, and piles of them with spaces that somebody else wrote.
#![tactic(auto)]

#[cfg(test)]
mod ends;
#[cfg(test)]
mod foreign;
#[cfg(test)]
mod limits;
#[cfg(test)]
mod stacked;
#[cfg(test)]
mod steps;
#[cfg(test)]
mod stretches;
#[cfg(test)]
mod windows;
