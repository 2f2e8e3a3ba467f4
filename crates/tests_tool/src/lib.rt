//! The tests of campaign_claims, fault_campaign, dccp_command and bridge_command, on their public calls. What the
//! second tool does with blocks and with cut captures, and the faults of places, are worked rows of proofs/, computed
//! from the definitions. The tests are in a separate crate because a crate with tests is proved twice, with them and
//! without.
#![tactic(auto)]

#[cfg(test)]
mod bridge;
#[cfg(test)]
mod calls;
#[cfg(test)]
mod campaigns;
#[cfg(test)]
mod cases;
#[cfg(test)]
mod claims;
#[cfg(test)]
mod failures;
#[cfg(test)]
mod gates;
#[cfg(test)]
mod pieces;
#[cfg(test)]
mod rows;
#[cfg(test)]
mod schedules;
#[cfg(test)]
mod seeds;
#[cfg(test)]
mod words;
#[cfg(test)]
mod worked;
