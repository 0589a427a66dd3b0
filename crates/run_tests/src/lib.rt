//! Tests of the top call, on devices that fail and with several workers, of live tables, and of loops by what was written.
#![tactic(auto)]

#[cfg(test)]
mod demo;
#[cfg(test)]
mod devices;
#[cfg(test)]
mod live;
#[cfg(test)]
mod loops;
#[cfg(test)]
mod meeting;
#[cfg(test)]
mod plants;
#[cfg(test)]
mod reading;
#[cfg(test)]
mod trial;
#[cfg(test)]
mod workers;
