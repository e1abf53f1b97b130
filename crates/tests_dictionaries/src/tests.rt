//! The modules, by what they test.

mod agreeing;
mod chosen;
mod circuits;
mod made;
mod numbered;
mod plans;
mod rows;
mod sparse;
mod spelled;
mod tables;
