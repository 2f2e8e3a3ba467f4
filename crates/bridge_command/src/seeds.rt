//! `seeds`: the counts of each seed of a campaign, and the result of its run (own).

mod telling;

pub(crate) use crate::seeds::telling::tell_seeds;
