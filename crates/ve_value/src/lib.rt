//! Works out the values of expressions, token by token, from left to right.
#![tactic(auto)]

mod factor;
mod fault;
mod module_shape;
mod module_value;
mod names;
mod shape;
mod sign;
mod value;

pub use fault::ValueFault;
pub use module_shape::is_module_expression;
pub use module_value::module_difference_of;
pub use names::text_of;
pub use shape::is_expression;
pub use value::difference_of;
