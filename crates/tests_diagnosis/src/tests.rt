//! The modules, by what they test.

mod adaptive;
mod bridged;
mod kept;
mod lists;
mod logs;
mod ranked;
mod refused;
mod simulated;
mod suspected;
