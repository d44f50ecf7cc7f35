//! Values of a JSON text, taken one after another from its tokens.
#![tactic(auto)]

mod clipping;
mod leaves;
mod numeral;
mod opening;
mod passing;
mod stop;
mod texts;
mod whole_number;

pub use clipping::clipped;
pub use leaves::{leaf, leaf_rest};
pub use numeral::number;
pub use opening::{open_array, open_object};
pub use passing::{NotJson, pass, pass_rest};
pub use stop::Stop;
pub use texts::text;
pub use whole_number::integer;
