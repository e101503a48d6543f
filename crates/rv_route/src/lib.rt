//! From trace lines to what each CPU has to do.
#![tactic(auto)]

mod asking;
mod collector;
mod deliveries;
mod event;
mod field_tests;
mod finds;
mod firing;
mod index;
mod lanes;
mod laws;
mod limits;
mod listing;
mod routed;
mod router;
mod tracing;

pub use asking::{Ask, is_met, test_holds, value_at};
pub use collector::Collector;
pub use deliveries::MAX_DELIVERIES;
pub use event::{Asked, Event, tested_field};
pub use finds::Finds;
pub use index::{Index, event_at, index_of};
pub use laws::{
    fired_lines_are_enough, lines_are_routed_alike, lines_make_the_whole, routed_works_fit,
    works_are_from_rules,
};
pub use limits::limits_are_numerals;
pub use listing::{DeliveryList, Listed, RoutedList, Target};
pub use routed::Routed;
pub use router::Router;
pub use tracing::route;
