// Worked tables of both forms of diagram: which are accepted, by which question the others are refused, and what walks
// through them answer.
#![tactic(auto)]

#[cfg(test)]
mod bit_tables;
#[cfg(test)]
mod bit_walks;
#[cfg(test)]
mod column_tables;
#[cfg(test)]
mod column_walks;
#[cfg(test)]
mod sizes;
#[cfg(test)]
mod tables;
