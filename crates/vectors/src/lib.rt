// Tests of the loaders and images: files made by hand from the format's publication, damaged and cut ones among them.
#![tactic(auto)]

#[cfg(test)]
mod cut;
#[cfg(test)]
mod dumps;
#[cfg(test)]
mod lime;
#[cfg(test)]
mod published;
#[cfg(test)]
mod raw;
