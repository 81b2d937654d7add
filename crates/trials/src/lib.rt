// Examples as tests, for every crate: a crate with tests is proved twice, so they stand here.
#![tactic(auto)]

#[cfg(test)]
mod head_tests;
#[cfg(test)]
mod judge_tests;
#[cfg(test)]
mod log_tests;
#[cfg(test)]
mod standard_tests;
#[cfg(test)]
mod table_tests;
#[cfg(test)]
mod test_makings;
#[cfg(test)]
mod worked_tests;
