//! Words of Go that are not in the language, and what to write instead.

/// A word, and what to write instead.
#[derive(Clone, Copy)]
pub struct Known(&'static str, &'static str);

/// What to write instead of `word`, if the table has it.
pub fn stand_in(table: &[Known], word: &str) -> Option<&'static str> {
    for one in table {
        if one.0 == word {
            return Some(one.1);
        }
    }
    None
}

const PRINTS: &str =
    "there are no packages: println prints its arguments, with a space between each two";

const TEXTS: &str =
    "there are no packages: strings are only printed, and println also prints ints and bools";

const COUNTS: &str =
    "there is no sync.WaitGroup: let each goroutine send on a channel when it is done, and receive once for each: docs/GO.md#waitgroup";

const LOCKS: &str =
    "there is no sync.Mutex: make(chan bool, 1) is a lock; send to it to lock, receive from it to unlock: docs/GO.md#mutex";

const CLOCK: &str =
    "there is no time: a goroutine that counts can be the clock of a select: docs/GO.md#timeout";

const CANCELS: &str =
    "there is no package context: close a channel to cancel, and receive from it in each select: docs/GO.md#context-and-cancel";

/// Packages, and what to write instead.
pub static PACKAGES: [Known; 21] = [
    Known("fmt", PRINTS),
    Known("log", PRINTS),
    Known(
        "time",
        "there is no time: goroutines wait for messages; a loop that counts takes logical time",
    ),
    Known(
        "sync",
        "there is no package sync: make(chan bool, 1) is a lock, and one receive for each goroutine waits for all of them",
    ),
    Known(
        "atomic",
        "there is no package atomic: give the variable to one goroutine, and send it what to do",
    ),
    Known(
        "os",
        "there is no package os: a return from main ends the run, and println prints what went wrong",
    ),
    Known(
        "errors",
        "there is no package errors: return an int or a bool that says what went wrong",
    ),
    Known("context", CANCELS),
    Known(
        "errgroup",
        "there is no errgroup: let each goroutine send what went wrong: docs/GO.md#errgroup",
    ),
    Known("strings", TEXTS),
    Known("strconv", TEXTS),
    Known("bytes", TEXTS),
    Known("unicode", TEXTS),
    Known(
        "math",
        "there is no package math: write a function on ints; there are no floating-point numbers",
    ),
    Known(
        "rand",
        "there is no package rand: compute the next number, as x = (x*1103515245 + 12345) % 2147483648",
    ),
    Known(
        "sort",
        "there are no slices to sort: send values through a chain of goroutines",
    ),
    Known(
        "io",
        "there is no input: write the values in the program, and print by println",
    ),
    Known(
        "bufio",
        "there is no input: write the values in the program, and print by println",
    ),
    Known(
        "flag",
        "there are no arguments: write the values in the program",
    ),
    Known(
        "runtime",
        "there is no package runtime: the output is the same with any number of workers",
    ),
    Known(
        "testing",
        "there are no packages: print results by println, and compare the output",
    ),
];

/// Types and functions of Go's packages for which there is more to say than for their package, and what to write instead.
pub(crate) static MEMBERS: [Known; 8] = [
    Known("WaitGroup", COUNTS),
    Known("Mutex", LOCKS),
    Known("RWMutex", LOCKS),
    Known("After", CLOCK),
    Known("AfterFunc", CLOCK),
    Known("NewTimer", CLOCK),
    Known("Tick", CLOCK),
    Known("NewTicker", CLOCK),
];

/// Methods of Go's packages, and what to write instead.
pub(crate) static METHODS: [Known; 10] = [
    Known("Wait", COUNTS),
    Known("Add", COUNTS),
    Known("Done", COUNTS),
    Known("Lock", LOCKS),
    Known("Unlock", LOCKS),
    Known("RLock", LOCKS),
    Known("RUnlock", LOCKS),
    Known(
        "Error",
        "there are no errors: return an int or a bool that says what went wrong",
    ),
    Known("Println", PRINTS),
    Known("Printf", PRINTS),
];

pub(crate) const ONLY_INT: &str =
    "the only type of numbers is int, of 64 bits: there are no conversions";

const NO_FLOAT: &str = "there are no floating-point numbers";

/// What to write instead of a slice, an array or a type parameter.
pub(crate) const NO_ARRAY: &str =
    "there are no slices, arrays and type parameters; a buffered channel can be the array: docs/GO.md#queue";

const NO_SLICE: &str = "there are no slices; a buffered channel can be the queue: docs/GO.md#queue";

const NO_MAP: &str = "there are no maps; a goroutine can keep the values: docs/GO.md#map";

const FAILS: &str = "there is no panic: print a message and return, and let callers return too";

const NULL: &str = "write nil; only channels can be nil";

/// Names that Go declares, or that programs of other languages use, and what to write instead.
pub static NAMES: [Known; 46] = [
    Known("panic", FAILS),
    Known("recover", "there is no recover: a panic ends the run"),
    Known("append", NO_SLICE),
    Known("copy", NO_SLICE),
    Known("delete", NO_MAP),
    Known("clear", NO_SLICE),
    Known(
        "new",
        "there are no pointers: declare a variable, and send its value on a channel",
    ),
    Known("min", "write an if: if b < a { a = b }"),
    Known("max", "write an if: if b > a { a = b }"),
    Known(
        "iota",
        "there is no iota: number the values yourself, from 0 on",
    ),
    Known("complex", NO_FLOAT),
    Known("exit", "a return from main ends the run"),
    Known("sleep", "there is no time: goroutines wait for messages"),
    Known("printf", PRINTS),
    Known("sprintf", TEXTS),
    Known(
        "error",
        "there are no interfaces: return an int or a bool that says what went wrong",
    ),
    Known("any", "there are no interfaces"),
    Known(
        "string",
        "there are no variables of type string: strings are printed as they stand",
    ),
    Known("int8", ONLY_INT),
    Known("int16", ONLY_INT),
    Known("int32", ONLY_INT),
    Known("int64", ONLY_INT),
    Known("uint", ONLY_INT),
    Known("uint8", ONLY_INT),
    Known("uint16", ONLY_INT),
    Known("uint32", ONLY_INT),
    Known("uint64", ONLY_INT),
    Known("uintptr", ONLY_INT),
    Known("byte", ONLY_INT),
    Known("rune", ONLY_INT),
    Known("integer", "the type of numbers is int"),
    Known("boolean", "the type of truth values is bool"),
    Known("float32", NO_FLOAT),
    Known("float64", NO_FLOAT),
    Known("float", NO_FLOAT),
    Known("double", NO_FLOAT),
    Known("null", NULL),
    Known("NULL", NULL),
    Known("None", NULL),
    Known("nullptr", NULL),
    Known("True", "write true"),
    Known("False", "write false"),
    Known("TRUE", "write true"),
    Known("FALSE", "write false"),
    Known(
        "this",
        "there are no methods: give the struct to a function as an argument",
    ),
    Known(
        "self",
        "there are no methods: give the struct to a function as an argument",
    ),
];

const WHILE: &str = "write for in place of while: for n > 0 { .. }";

const ELSE_IF: &str = "write else if: } else if n > 0 { .. }";

const DECLARES: &str = "write := to declare a variable: n := 3";

/// Words with which statements begin in other languages, and names of built-in functions, whose arguments are in parentheses.
pub(crate) static STATEMENTS: [Known; 21] = [
    Known("while", WHILE),
    Known(
        "until",
        "write for, with the opposite condition: for n > 0 { .. }",
    ),
    Known("loop", "for without a condition loops: for { .. }"),
    Known(
        "do",
        "for without a condition loops, and break leaves it: for { .. }",
    ),
    Known("foreach", "write for: for n := range c { .. }"),
    Known("elif", ELSE_IF),
    Known("elsif", ELSE_IF),
    Known("elseif", ELSE_IF),
    Known("let", DECLARES),
    Known("auto", DECLARES),
    Known("val", DECLARES),
    Known(
        "string",
        "there are no variables of type string: strings are printed as they stand",
    ),
    Known("print", "the arguments stand in parentheses: print(n)"),
    Known("println", "the arguments stand in parentheses: println(n)"),
    Known("close", "the channel stands in parentheses: close(c)"),
    Known("len", "the channel stands in parentheses: len(c)"),
    Known("cap", "the channel stands in parentheses: cap(c)"),
    Known("make", "the type stands in parentheses: make(chan int)"),
    Known("match", "there is no switch: write if and else"),
    Known(
        "try",
        "there are no exceptions: return an int or a bool that says what went wrong",
    ),
    Known("throw", FAILS),
];

const STRUCT: &str = "a struct type is declared by type T struct { .. }";

/// Words that begin a declaration in other languages.
pub(crate) static DECLARATIONS: [Known; 9] = [
    Known("class", STRUCT),
    Known("struct", STRUCT),
    Known("record", STRUCT),
    Known("function", "write func: func f() { .. }"),
    Known("fn", "write func: func f() { .. }"),
    Known("fun", "write func: func f() { .. }"),
    Known("def", "write func: func f() { .. }"),
    Known("proc", "write func: func f() { .. }"),
    Known("sub", "write func: func f() { .. }"),
];

/// Words that are operators or marks in other languages.
pub(crate) static OPERATORS: [Known; 6] = [
    Known("and", "write && in place of and"),
    Known("or", "write || in place of or"),
    Known("mod", "write % in place of mod"),
    Known(
        "in",
        "write := range in place of in: for n := range c { .. }",
    ),
    Known("then", "the statements stand in braces: if n > 0 { .. }"),
    Known(
        "to",
        "a loop over numbers counts: for i := 0; i < 10; i++ { .. }",
    ),
];

/// Keywords and marks of Go that are not in the language.
pub(crate) static MARKS: [Known; 10] = [
    Known("switch", "there is no switch: write if and else"),
    Known("map", NO_MAP),
    Known("interface", "there are no interfaces"),
    Known("goto", "loops and ifs take its place"),
    Known("fallthrough", "loops and ifs take its place"),
    Known(
        "defer",
        "there is no defer: write the call before each return, and at the end",
    ),
    Known(
        "range",
        "range gives one value, what its channel gives next",
    ),
    Known(
        "...",
        "a function has a fixed number of parameters: write each of them",
    ),
    Known("~", "^ in place of ~ gives the complement"),
    Known(
        "import",
        "there are no imports: print and println are built in",
    ),
];
