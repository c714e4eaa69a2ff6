//! What programs share that read files from a command line: their arguments, the forms of their
//! input, what they tell, and how they end.
#![tactic(auto)]

pub mod arguments;
pub mod armor;
pub mod files;
pub mod form;
pub mod pem;
pub mod program;
pub mod shown;
pub mod spelled;
pub mod status;
pub mod tell;
