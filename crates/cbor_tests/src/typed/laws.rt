//! The laws of parts, each called at a concrete type: that the calls are proved is the test.
use ciborium_typed::laws::{
    accepted_values_are_taken_back, accepted_values_compare, captured_values_are_taken_back,
    captured_values_compare, lists_are_taken_back, maps_are_taken_back, options_are_taken_back,
    required_values_are_taken_back, required_values_compare, tuples_of_four_are_taken_back,
    tuples_of_one_are_taken_back, tuples_of_three_are_taken_back, tuples_of_two_are_taken_back,
};
use ciborium_typed::tag::{Accepted, Captured, Required};
use std::collections::BTreeMap;

#[test]
fn parts_are_taken_back(rt: HostRuntime) {
    options_are_taken_back(&true);
    lists_are_taken_back(&Vec::<bool>::new(rt.alloc()));
    tuples_of_one_are_taken_back(&(true,));
    tuples_of_two_are_taken_back(&(false, true));
    tuples_of_three_are_taken_back(&(false, false, true));
    tuples_of_four_are_taken_back(&(false, false, false, true));
    maps_are_taken_back(&BTreeMap::<bool, bool>::new(rt.alloc()));
}

#[test]
fn tagged_values_are_taken_back_and_compare() {
    let captured = Captured(Some(5), true);
    captured_values_are_taken_back(&captured);
    captured_values_compare(&captured, &captured);
    let required = Required::<bool, 5>(true);
    required_values_are_taken_back(&required);
    required_values_compare(&required, &required);
    let accepted = Accepted::<bool, 5>(true);
    accepted_values_are_taken_back(&accepted);
    accepted_values_compare(&accepted, &accepted);
}
