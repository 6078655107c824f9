// Decision diagrams as rule books. A table is what a maker hands over: value counts, records and a start link, unchecked.
// Its check answers a rule book, which is a type of its own: the calls that walk are those of the trait `RuleBook`, and no
// table has that trait, so that walking an unchecked table is a type error. Both forms of diagram share all of it but what
// the trait `Node` tells apart.
#![tactic(auto)]

pub mod bits;
mod check;
pub mod columns;
mod forms;
mod links;
pub mod rule_book;
mod sized;
pub mod source;
mod steps;
pub mod table;
