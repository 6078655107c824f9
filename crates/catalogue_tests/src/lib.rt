// Worked catalogues, and tables of broken ones with the question and the line that refuse each.
#![tactic(auto)]

#[cfg(test)]
mod accepted;
#[cfg(test)]
mod reading;
#[cfg(test)]
mod refusals;
