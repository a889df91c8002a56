// Tests of paging: where addresses go in each scheme, what breaks a walk, bytes and edits seen through tables, tables
// that lie in paged memory themselves, and the layouts of known systems.
#![tactic(auto)]

#[cfg(test)]
mod boards;
#[cfg(test)]
mod bytes;
#[cfg(test)]
mod crossings;
#[cfg(test)]
mod edits;
#[cfg(test)]
mod four_level;
#[cfg(test)]
mod kernels;
#[cfg(test)]
mod mirrors;
#[cfg(test)]
mod nested;
#[cfg(test)]
mod pae;
#[cfg(test)]
mod two_level;
