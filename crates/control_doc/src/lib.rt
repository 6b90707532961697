//! The control file of a combination.
#![tactic(auto)]

/// The value of a step; a fault of it ends the function, as by `?`.
macro_rules! value {
    ($step:expr) => {
        match $step {
            Ok(value) => value,
            Err(error) => return Err(error),
        }
    };
}

mod arrays;
mod datum;
mod decimals;
mod faults;
mod files;
mod keys;
mod laws;
mod output;
mod parts;
mod plans;
mod reading;
mod reductions;
mod scales;
mod single;
mod texts;

pub use faults::{ControlCause, ControlError, ControlFault};
pub use laws::one_control;
pub use plans::{Control, Datum, FilePlan, Form, Held, Place, Reduction, Site};
pub use reading::read_control;
pub use single::alone;
