// Text in a buffer: numbers, figures, and the lines of the desk program.
#![tactic(auto)]

pub mod field;
pub mod line;

pub use field::Text;
