// Tests of sessions: what is replied to each payload, over the sample cart and over spaces that somebody else wrote, what a
// refused one leaves, the last fault, patch files, and calls that are not allowed.
#![tactic(auto)]

#[cfg(test)]
mod calls;
#[cfg(test)]
mod cart;
#[cfg(test)]
mod dumps;
#[cfg(test)]
mod faults;
#[cfg(test)]
mod files;
#[cfg(test)]
mod foreign;
#[cfg(test)]
mod heard;
#[cfg(test)]
mod limits;
#[cfg(test)]
mod piles;
#[cfg(test)]
mod refusals;
#[cfg(test)]
mod session;
#[cfg(test)]
mod table;
