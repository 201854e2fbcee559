//! The objects, each of which is one line.

use go_text::Memory;
use serde::Serialize;
use std::alloc::Global;

/// An object of a report. Its member `type` is the variant's name, in lower case.
#[derive(Drop, Serialize)]
#[serde(tag = "type", rename_all = "snake_case")]
pub enum Record<'r> {
    /// What is wrong at one location of a program.
    Error {
        /// The path of the program, as it was typed.
        file: &'r str,
        /// The number of the line, counted from 1, if the error has a location.
        #[serde(skip_serializing_if = "Option::is_none")]
        line: Option<u32>,
        /// The number of the column in bytes, counted from 1.
        #[serde(skip_serializing_if = "Option::is_none")]
        column: Option<u32>,
        /// The number of the error, 1 to 10.
        code: u8,
        /// What the error is called, as `Syntax`.
        name: &'static str,
        /// The number of the typing rule, or of the sort of limit.
        #[serde(skip_serializing_if = "Option::is_none")]
        rule: Option<u8>,
        /// What is wrong, in one line.
        message: &'r str,
        /// What to write instead, in one line, if that is known.
        #[serde(skip_serializing_if = "Option::is_none")]
        hint: Option<&'r str>,
    },
    /// A way in which a program ends in some orders of its events.
    Outcome {
        /// The path of the program, as it was typed.
        file: &'r str,
        /// Its number in the report, counted from 1.
        number: usize,
        /// `finished`, `deadlock`, `panic`, `leak`: goroutines are left that wait for good; `limit`: one of kendo's own;
        /// `unended`: it goes on.
        end: &'static str,
        /// The number of the panic, or of the limit that is reported as a panic.
        #[serde(skip_serializing_if = "Option::is_none")]
        panic: Option<u8>,
        /// What panic or limit that is.
        #[serde(skip_serializing_if = "Option::is_none")]
        message: Option<&'static str>,
        /// What is printed. Bytes that are not UTF-8 are replaced by U+FFFD.
        output: String,
        /// The bytes that are printed, if they are not UTF-8.
        #[serde(skip_serializing_if = "Option::is_none")]
        output_base64: Option<String>,
        /// Whether `kendo run` ends so.
        ordinary: bool,
        /// The name of the file with the plan by which the program ends so; none of the ordinary run, and of an outcome that no run
        /// shows.
        #[serde(skip_serializing_if = "Option::is_none")]
        plan: Option<&'r str>,
        /// The pauses of the plan.
        pauses: Vec<PauseRecord<'r>>,
    },
    /// What an exploration found, and how much it searched.
    Exploration {
        /// The path of the program, as it was typed.
        file: &'r str,
        /// `same`, `unended`, `same_so_far`, `other` or `unshown`.
        verdict: &'static str,
        /// How many outcomes were found.
        outcomes: usize,
        #[serde(flatten)]
        searched: SearchRecord,
    },
    /// The test of a program.
    Test {
        /// The path of the program, as it was typed.
        file: &'r str,
        passed: bool,
        /// Whether its comments were rewritten.
        updated: bool,
        /// Why it doesn't pass, or why its comments could not be rewritten.
        reasons: &'r [String],
        /// How many seconds the test took, if the clock says so.
        #[serde(skip_serializing_if = "Option::is_none")]
        seconds: Option<f64>,
        /// How much of the other orders was searched, if the program passes in these too.
        #[serde(skip_serializing_if = "Option::is_none")]
        searched: Option<SearchRecord>,
        /// The names of the files with plans by which the program fails.
        plans: Vec<&'r str>,
    },
    /// How many programs passed their tests, and how many did not.
    Tests {
        passed: u64,
        failed: u64,
    },
}

/// How much of the orders was searched.
#[derive(Clone, Copy, Serialize)]
pub struct SearchRecord {
    /// How many states were visited.
    pub states: usize,
    /// How many walks were made.
    pub walks: u64,
    /// Whether all orders were searched.
    pub all_orders: bool,
}

/// A pause of a plan: the goroutine waits for some ticks before a request, or tries a clause of a select first.
#[derive(Drop, Serialize)]
pub struct PauseRecord<'r> {
    /// The way from `main` to the goroutine, as in a plan.
    pub goroutine: &'r str,
    /// The name of the function that the goroutine started with.
    pub function: &'r str,
    /// The number of the request among those that the goroutine makes, counted from 1.
    pub request: u64,
    #[serde(skip_serializing_if = "Option::is_none")]
    pub ticks: Option<u64>,
    #[serde(skip_serializing_if = "Option::is_none")]
    pub clause: Option<u64>,
    /// The number of the line at which the goroutine makes the request.
    pub line: u32,
}

impl Record<'_> {
    /// The line: the object, and a newline.
    ///
    /// Errors: out of memory.
    pub fn line(&self, alloc: Global) -> Result<Vec<u8>, Memory> {
        let Ok(mut line) = serde_json::to_vec(alloc, self) else {
            return Err(Memory);
        };
        line.push(b'\n')?;
        Ok(line)
    }
}
