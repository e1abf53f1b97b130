//! Each module tests the runs of a command or of several.

mod applied;
mod bridging;
mod covers;
mod expecting;
mod failing;
mod long_logs;
mod runs;
mod suspecting;
mod texts;
mod words;
