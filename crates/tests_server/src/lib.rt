//! The tests of dccp_server, on its public calls. They are in a separate crate, so that the tests of ends and their
//! owners (tests_ends) need no server.
#![tactic(auto)]

#[cfg(test)]
mod first_numbers;
#[cfg(test)]
mod greetings;
#[cfg(test)]
mod rows;
