//! Tests of games, of their memory and of their solvers, each through public calls.
#![tactic(auto)]

#[cfg(test)]
mod abstraction;
#[cfg(test)]
mod boards;
#[cfg(test)]
mod forward;
#[cfg(test)]
mod games;
#[cfg(test)]
mod keep;
#[cfg(test)]
mod meeting;
#[cfg(test)]
mod plain;
#[cfg(test)]
mod raw_lists;
#[cfg(test)]
mod reach;
#[cfg(test)]
mod row_fills;
#[cfg(test)]
mod sweeps;
#[cfg(test)]
mod tables;
