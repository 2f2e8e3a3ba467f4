//! Single calls of feature_lists: `usual_values`, which no other crate calls, and some that feature_machine makes. The
//! end makes all others, and those of feature_machine.
use feature_lists::{Feature, Place, reconcile};
use std::test::Fail;

fn describes(feature: Feature) -> bool {
    feature.is_server_priority()
        && feature.width() == 1
        && !feature.is_required()
        && feature.is_permitted(Place::Here, 15)
        && feature.usual_values(Place::Here) == [0].as_slice()
}

#[test]
fn a_feature_and_its_lists(rt: HostRuntime) -> Result<(), Fail> {
    assert!(rt; describes(Feature::MinCsCov));
    assert!(rt; reconcile(&[1, 2], &[2, 1]) == Some(1));
    Ok(())
}
