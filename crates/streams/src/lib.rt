// Tests of the server: what is sent for a stream, whole and in pieces, when it is sent, and what an input or an output that
// fails leaves.
#![tactic(auto)]

#[cfg(test)]
mod cart;
#[cfg(test)]
mod failing;
#[cfg(test)]
mod gdb;
#[cfg(test)]
mod items;
#[cfg(test)]
mod listening;
#[cfg(test)]
mod peers;
#[cfg(test)]
mod registers;
#[cfg(test)]
mod served;
