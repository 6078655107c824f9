// Reads a catalogue from its text into tables that are lent.
#![tactic(auto)]

pub mod desk;
pub mod entries;
pub mod rows;
mod sections;
pub mod tables;
pub mod whole;
