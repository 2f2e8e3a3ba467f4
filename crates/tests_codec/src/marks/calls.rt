//! Lists of calls, each with its expected result. One function makes all calls of a kind, because a proof follows each
//! value that a function holds through each of its steps.
use std::test::Fail;

// What such a list calls.
pub(crate) trait CallTarget<C> {
    // Whether a call has its expected result. None means that it may not be made or has too large a number; no list has
    // such a call.
    fn holds(&mut self, call: &C) -> Option<bool>;
}

// Makes the calls of a list, one after another. Fails at the first call with another result, and names its place.
pub(crate) fn all_come<C, S: CallTarget<C>>(
    called: &mut S,
    name: &str,
    calls: &[C],
) -> Result<(), Fail> {
    for (place, call) in calls.iter().enumerate() {
        if !matches!(called.holds(call), Some(true)) {
            return Err(Fail::new(format_args!("{name}: call {place}")));
        }
    }
    Ok(())
}
