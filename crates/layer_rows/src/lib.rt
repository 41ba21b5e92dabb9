//! Tests of the layers below the tool: tables of calls, whose answers were found by hand. The answers of commands are tried over `run`, by tables
//! of another crate. The tests stand in one crate, so that no crate is proved a second time for its tests.
#![tactic(auto)]

#[cfg(test)]
mod architectures;
#[cfg(test)]
mod calls;
#[cfg(test)]
mod checkers;
#[cfg(test)]
mod decodes;
#[cfg(test)]
mod fractions;
#[cfg(test)]
mod layers;
#[cfg(test)]
mod levels;
#[cfg(test)]
mod links;
#[cfg(test)]
mod nests;
#[cfg(test)]
mod plan_texts;
#[cfg(test)]
mod plans;
#[cfg(test)]
mod readings;
#[cfg(test)]
mod runs;
#[cfg(test)]
mod schedules;
#[cfg(test)]
mod splits;
#[cfg(test)]
mod streams;
#[cfg(test)]
mod tokens;
#[cfg(test)]
mod traces;
#[cfg(test)]
mod traces_written;
#[cfg(test)]
mod types;
#[cfg(test)]
mod values;
#[cfg(test)]
mod vhdl_texts;
#[cfg(test)]
mod views;
#[cfg(test)]
mod words;
