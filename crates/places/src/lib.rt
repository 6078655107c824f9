// How many places the rule book of a catalogue's diagram has: reads a text, checks the diagram that it holds, and answers.
#![tactic(auto)]

mod judge;
pub mod report;
pub mod survey;
