//! Where the goroutines of a program are at the end of its run. The program is compiled and run once more, on one thread, by the same
//! machine, so the explanation is of the same run whatever its length.
#![tactic(auto)]

mod compiled;
mod ending;
mod explanation;
mod goroutine;
mod second_run;
mod variables;

pub use explanation::compiled_end;
