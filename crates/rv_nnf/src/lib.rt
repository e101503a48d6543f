//! Normal forms of formulas: negations stand inside labels alone, and the parts are numbered by first use
//! (Gerth, Peled, Vardi and Wolper, 1995).
#![tactic(auto)]

mod entering;
mod labels;
mod laws;
mod numbers;
mod parts;

pub use laws::{
    last_part_is_the_formula, normal_form_keeps_truth, part_is_what_its_operands_make,
    weak_until_is_a_release,
};
pub use numbers::normal;
pub use parts::{Normal, Part};
