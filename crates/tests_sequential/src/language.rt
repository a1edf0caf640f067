//! Sources and modules.

mod conversions;
pub mod faults_told;
pub mod parsing;
mod tasks;
