// Tests of packets: digits, frames as they are written and heard, sessions of the protocol, and what a payload asks for.
#![tactic(auto)]

#[cfg(test)]
mod commands;
#[cfg(test)]
mod frames;
#[cfg(test)]
mod hexadecimal;
#[cfg(test)]
mod items;
#[cfg(test)]
mod sessions;
