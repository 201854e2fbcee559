//! Hints for a syntax error, by the tokens around it and those that could come next.

use crate::expected::Expected;
use crate::hint::Hint;
use crate::known::{
    DECLARATIONS, MARKS, NAMES, NO_ARRAY, ONLY_INT, OPERATORS, STATEMENTS, stand_in,
};
use crate::nesting::Nesting;
use crate::site::{NEWLINE, Site};
use diagnostic_words::spelling::is_near;

const VALUE: &str = "a value is no statement: assign it, or print it";

const NO_RANGE: &str = "there are no slices: fill a buffered channel, close it, and range over it";

const ONE_RESULT: &str = "a function has at most one result: return a struct";

/// A syntax error: its location, the tokens that could come next, and the brackets that are open.
#[derive(Clone, Copy)]
pub(crate) struct Trouble<'s, 't> {
    pub site: Site<'t>,
    pub expected: &'s Expected,
    pub nesting: &'s Nesting,
}

impl<'s, 't> Trouble<'s, 't> {
    /// A hint, if there is one.
    pub(crate) fn hint(&self) -> Option<Hint<'t>> {
        if let Some(hint) = self.file_hint() {
            return Some(hint);
        }
        if let Some(hint) = self.misplaced_hint() {
            return Some(hint);
        }
        if let Some(hint) = self.bracket_hint() {
            return Some(hint);
        }
        if let Some(hint) = self.string_hint() {
            return Some(hint);
        }
        if let Some(hint) = self.built_in_hint() {
            return Some(hint);
        }
        if let Some(hint) = self.statement_hint() {
            return Some(hint);
        }
        if let Some(hint) = self.mark_hint() {
            return Some(hint);
        }
        self.word_hint()
    }

    /// Whether a statement could come next.
    fn wants_statement(&self) -> bool {
        self.expected.has("if") && self.expected.has("return")
    }

    /// Whether a type could come next.
    fn wants_type(&self) -> bool {
        self.expected.has("chan")
    }

    /// Whether the fault lies right after the first name of a statement.
    fn follows_first_name(&self) -> bool {
        self.site.statement_start().saturating_add(1) == self.site.at && self.site.is_name_before(1)
    }

    /// Whether the fault lies outside of brackets, after a value with which a statement begins.
    fn follows_value(&self) -> bool {
        let first = self.first_word();
        let begins_value = self.site.is_name(self.site.statement_start())
            || is_digit_first(first)
            || matches!(first, "(" | "<-");
        let is_after = self.site.statement_start() < self.site.at && !self.is_within();
        begins_value && is_after && !self.statement_has("++", "--")
    }

    /// Whether this is the word of a type that is built in, or of one that the program declares.
    fn is_type_name(&self, word: &str) -> bool {
        word == "int" || word == "bool" || self.is_declared("type", word)
    }

    /// Whether the program declares this name after `func` or `type`.
    pub(crate) fn is_declared(&self, keyword: &str, word: &str) -> bool {
        self.declared(keyword, word, false).is_some()
    }

    /// The first name after `func` or `type` that is this word or, if `near` holds, could be meant by it.
    fn declared(&self, keyword: &str, word: &str, near: bool) -> Option<&'t str> {
        let mut declares = false;
        for index in 0..self.site.tokens.len() {
            let name = self.site.word_at(index);
            if declares && (name == word || (near && is_near(word.as_bytes(), name.as_bytes()))) {
                return Some(name);
            }
            declares = name == keyword;
        }
        None
    }

    /// A hint for a first line other than `package main`, and for code outside of functions.
    fn file_hint(&self) -> Option<Hint<'t>> {
        if self.expected.has("package") {
            return Some(Hint::Plain("a program begins with the line package main"));
        }
        if self.site.at == 1 {
            return Some(Hint::Plain("the only package is main: package main"));
        }
        if self.expected.has("func") {
            return self.declaration_hint();
        }
        None
    }

    /// A hint for what is no declaration.
    fn declaration_hint(&self) -> Option<Hint<'t>> {
        let found = self.site.found();
        match found {
            "import" => return Some(Hint::Plain(self.import_hint())),
            "const" => return Some(self.constant_hint()),
            "var" => return Some(self.global_hint()),
            "}" => return Some(Hint::Plain("no { is open for this }")),
            _ => {}
        }
        if let Some(hint) = stand_in(&DECLARATIONS, found) {
            return Some(Hint::Plain(hint));
        }
        if let Some(keyword) = near_keyword(found, "func type") {
            return Some(Hint::Naming("did you mean ", keyword, "?"));
        }
        if let Some(hint) = stand_in(&MARKS, found) {
            return Some(Hint::Plain(hint));
        }
        Some(Hint::Plain("statements stand in functions: is a } before this line one too many?"))
    }

    /// What to write instead of a constant.
    fn constant_hint(&self) -> Hint<'t> {
        if !self.site.is_name(self.site.at.saturating_add(1)) {
            return Hint::Plain(
                "there are no constants: declare variables in main, and pass them to functions",
            );
        }
        let name = self.site.after(1);
        if self.nesting.open.is_empty() {
            Hint::Naming(
                "there are no constants: declare ",
                name,
                " := .. in main, and pass it to functions",
            )
        } else {
            Hint::Naming(
                "there are no constants: declare a variable, ",
                name,
                " := ..",
            )
        }
    }

    /// What to write instead of a variable outside of functions.
    fn global_hint(&self) -> Hint<'t> {
        if !self.site.is_name(self.site.at.saturating_add(1)) {
            return Hint::Plain("variables are declared in functions: pass them as arguments");
        }
        let name = self.site.after(1);
        Hint::Naming(
            "variables are declared in functions: declare ",
            name,
            " in main, and pass it as an argument",
        )
    }

    /// A hint for a bracket that is open still, or one that closes nothing.
    fn bracket_hint(&self) -> Option<Hint<'t>> {
        let site = &self.site;
        let found = site.found();
        let starts_line = site.line_before(site.at).is_empty();
        if self.wants_statement() && starts_line && matches!(found, "func" | "type" | "import") {
            return self.open(self.nesting.unclosed());
        }
        let innermost = self.nesting.innermost();
        if site.is_at_end() {
            return self.open(self.nesting.unclosed());
        }
        if found == ")" && !self.is_open("(") {
            return Some(Hint::Plain("no ( is open for this )"));
        }
        let ends = matches!(found, "\n" | ";" | "{" | "}");
        if ends && self.is_open("(") && self.expected.has(")") {
            return self.list_hint(innermost, "a comma or ) is missing at the end of this line");
        }
        if found == NEWLINE && self.expected.has("}") && !self.expected.has(";") {
            return self.list_hint(innermost, "a comma or } is missing at the end of this line");
        }
        None
    }

    /// A hint for the end of a line in brackets that begin with this token: that they are open still or, if they begin on another
    /// line, this one.
    fn list_hint(&self, bracket: Option<usize>, missing: &'static str) -> Option<Hint<'t>> {
        let index = bracket?;
        if self.site.line_number(index) == self.site.line_number(self.site.at) {
            return self.open(bracket);
        }
        Some(Hint::Plain(missing))
    }

    /// Whether this is the innermost bracket that is open.
    fn is_open(&self, mark: &str) -> bool {
        match self.nesting.innermost() {
            Some(index) => self.site.word_at(index) == mark,
            None => false,
        }
    }

    /// The hint that the bracket with this index is open still.
    fn open(&self, bracket: Option<usize>) -> Option<Hint<'t>> {
        let index = bracket?;
        Some(Hint::Open(self.site.word_at(index), self.site.line_number(index)))
    }

    /// The name before the innermost bracket, if that is a `(`.
    fn callee(&self) -> &'t str {
        let Some(index) = self.nesting.innermost() else {
            return "";
        };
        match index.checked_sub(1) {
            Some(before) if self.is_open("(") && self.site.is_name(before) => {
                self.site.word_at(before)
            }
            _ => "",
        }
    }

    /// A hint for a string, or for what comes after one.
    fn string_hint(&self) -> Option<Hint<'t>> {
        let found = self.site.found();
        if self.site.before(1).starts_with("\"") && self.expected.has(",") {
            return Some(Hint::Plain(
                "println takes arguments separated by commas: println(\"n is\", n)",
            ));
        }
        if !found.starts_with("\"") {
            return None;
        }
        if matches!(self.site.before(1), "print" | "println") {
            return Some(Hint::Plain("the arguments stand in parentheses: println(\"a\")"));
        }
        if self.site.before(1) == "+" {
            return Some(Hint::Plain(
                "println takes arguments separated by commas: println(\"n is\", n)",
            ));
        }
        if let Some(hint) = self.callee_hint() {
            return Some(hint);
        }
        Some(Hint::Plain("strings stand only as arguments of print and println"))
    }

    /// A hint for a function that is given a string.
    fn callee_hint(&self) -> Option<Hint<'t>> {
        let callee = self.callee();
        if callee.is_empty() || self.is_declared("func", callee) {
            return None;
        }
        if let Some(hint) = stand_in(&NAMES, callee) {
            return Some(Hint::Plain(hint));
        }
        if let Some(printer) = near_keyword(callee, "println print") {
            return Some(Hint::Naming("did you mean ", printer, "?"));
        }
        None
    }

    /// A hint for a token after the name of a built-in function that is no `(`.
    fn built_in_hint(&self) -> Option<Hint<'t>> {
        let word = self.site.before(1);
        let found = self.site.found();
        if !is_built_in(word) || found == "(" || !self.expected.has("(") {
            return None;
        }
        if self.follows_first_name() && matches!(found, ":=" | "=" | ",") {
            return Some(Hint::Naming("", word, " is built in: choose another name"));
        }
        match stand_in(&STATEMENTS, word) {
            Some(hint) => Some(Hint::Plain(hint)),
            None => None,
        }
    }

    /// A hint for the token after the first name of a statement, or for a name that no statement begins with.
    fn statement_hint(&self) -> Option<Hint<'t>> {
        if !self.follows_first_name() || self.expected.has("func") {
            return None;
        }
        let site = &self.site;
        let word = site.before(1);
        if site.found() == ":" {
            // A label, whatever its name.
            return None;
        }
        if let Some(hint) = stand_in(&STATEMENTS, word) {
            return Some(Hint::Plain(hint));
        }
        let begins_value = site.is_name(site.at) || is_digit_first(site.found());
        if !begins_value && !matches!(site.found(), "\n" | "{" | "}") {
            return None;
        }
        if let Some(keyword) = near_keyword(
            word,
            "return for if go var select break continue else",
        ) {
            return Some(Hint::Naming("did you mean ", keyword, "?"));
        }
        self.naming_hint(word)
    }

    /// A hint for a statement that has this name and then another one, or nothing.
    fn naming_hint(&self, word: &'t str) -> Option<Hint<'t>> {
        let found = self.site.found();
        if self.site.is_name(self.site.at) && self.is_type_name(word) {
            return Some(Hint::Declare(found, word));
        }
        if self.is_type_name(found) {
            return Some(Hint::Declare(word, found));
        }
        if found == NEWLINE && self.is_declared("func", word) {
            return Some(Hint::Naming("a call has parentheses: ", word, "()"));
        }
        None
    }

    /// A hint for a mark.
    fn mark_hint(&self) -> Option<Hint<'t>> {
        match self.site.found() {
            "(" => self.call_hint(),
            "." => self.period_hint(),
            "," => self.comma_hint(),
            ":" => self.colon_hint(),
            ":=" => self.define_hint(),
            "=" => self.assign_hint(),
            "[" => Some(self.bracket_of_type_hint()),
            "*" | "&" => self.pointer_hint(),
            "\n" => self.line_hint(),
            "}" => self.value_hint(),
            "<-" => self.arrow_hint(),
            "{" => self.brace_hint(),
            "++" | "--" => self.step_hint(),
            ")" if self.first_word() == "func" && self.wants_type() => {
                Some(Hint::Plain("each parameter has a name and a type: n int"))
            }
            found => self.operator_hint(found),
        }
    }

    /// A hint for a `(`.
    fn call_hint(&self) -> Option<Hint<'t>> {
        let site = &self.site;
        match site.before(1) {
            "func" if self.nesting.open.is_empty() => {
                return Some(Hint::Plain(
                    "there are no methods: give the struct to a function as an argument",
                ));
            }
            "var" => return Some(Hint::Plain("each variable has a var of its own: var n int")),
            "type" => return Some(Hint::Plain(
                "each type has a type of its own: type T struct { .. }",
            )),
            "." => return Some(Hint::Plain("there are no interfaces: a variable has one type")),
            _ => {}
        }
        if site.before(2) == "." && site.is_name_before(1) {
            return Some(self.selected_hint(site.before(3), site.before(1)));
        }
        None
    }

    /// Whether a token of the statement before the fault is one of these.
    fn statement_has(&self, one: &str, other: &str) -> bool {
        for index in self.site.statement_start()..self.site.at {
            let word = self.site.word_at(index);
            if word == one || word == other {
                return true;
            }
        }
        false
    }

    /// Whether the fault lies among the fields of a struct type.
    pub(crate) fn is_in_struct(&self) -> bool {
        match self.nesting.innermost() {
            Some(index) => match index.checked_sub(1) {
                Some(before) => self.site.word_at(before) == "struct",
                None => false,
            },
            None => false,
        }
    }

    /// Whether a bracket of the statement of the fault is open.
    fn is_within(&self) -> bool {
        match self.nesting.innermost() {
            Some(index) => index >= self.site.statement_start(),
            None => false,
        }
    }

    /// The first token of the statement of the fault.
    pub(crate) fn first_word(&self) -> &'t str {
        self.site.word_at(self.site.statement_start())
    }

    /// A hint for a misplaced comma.
    fn comma_hint(&self) -> Option<Hint<'t>> {
        if self.is_in_struct() {
            return Some(Hint::Plain("each field stands on a line of its own, without a comma"));
        }
        match self.first_word() {
            "return" => Some(Hint::Plain(ONE_RESULT)),
            "func" if self.wants_type() => Some(Hint::Plain(
                "each parameter has a name and a type: n int",
            )),
            "func" => Some(Hint::Plain(ONE_RESULT)),
            _ => None,
        }
    }

    /// A hint for a colon.
    fn colon_hint(&self) -> Option<Hint<'t>> {
        if self.expected.has(":=") {
            return Some(Hint::Plain(
                "there are no labels: a function of its own is left by return",
            ));
        }
        if self.first_word() == "func" && !self.is_open("(") {
            return Some(Hint::Plain("the result stands after the parameters: func f(n int) int"));
        }
        if self.wants_type() {
            let name = self.site.before(1);
            return Some(Hint::Naming("the type stands after the name: ", name, " int"));
        }
        if !self.is_open("{") || !self.expected.has(",") {
            return None;
        }
        let literal = self.nesting.innermost()?.checked_sub(1)?;
        Some(Hint::Naming(
            "values of a literal have no names: ",
            self.site.word_at(literal),
            "{..} gives each field its value, in the order of the fields",
        ))
    }

    /// A hint for a `:=`.
    fn define_hint(&self) -> Option<Hint<'t>> {
        let site = &self.site;
        if self.first_word() == "var" {
            return Some(Hint::Naming("write ", site.before(1), " := .. without var"));
        }
        if site.before(2) == "." {
            return Some(Hint::Plain("= assigns to a field; := declares a variable"));
        }
        if site.before(2) == "(" {
            return Some(Hint::Plain("headers have no parentheses: for i := 0; i < 10; i++ { .. }"));
        }
        None
    }

    /// A hint for a `=`.
    fn assign_hint(&self) -> Option<Hint<'t>> {
        if self.site.before(2) == "type" {
            return Some(Hint::Plain("only structs are declared types: type T struct { .. }"));
        }
        if self.first_word() == "func" {
            return Some(Hint::Plain("parameters have no default values"));
        }
        if self.expected.has("==") && !self.expected.has(":=") {
            return Some(Hint::Plain("== compares; = assigns, and is a statement"));
        }
        if self.follows_value() {
            return Some(Hint::Plain("= assigns to a variable or to a field of one"));
        }
        None
    }

    /// A hint for a `<-`.
    fn arrow_hint(&self) -> Option<Hint<'t>> {
        if self.first_word() == "<-" && self.expected.has(";") && self.follows_value() {
            return Some(Hint::Plain("to send to a channel that is received, write (<-c) <- 3"));
        }
        None
    }

    /// A hint for a `[`.
    fn bracket_of_type_hint(&self) -> Hint<'t> {
        if self.site.before(2) == "func" {
            return Hint::Plain("there are no type parameters: write a function for each type");
        }
        if self.site.before(1) == "range" {
            return Hint::Plain(NO_RANGE);
        }
        Hint::Plain(NO_ARRAY)
    }

    /// A hint for the end of a line.
    fn line_hint(&self) -> Option<Hint<'t>> {
        let site = &self.site;
        if self.is_in_struct() && self.wants_type() {
            return Some(Hint::Plain("each field has a name and a type: n int"));
        }
        if site.after(1) == "{" && self.expected.has("{") {
            return Some(Hint::Plain("the { stands at the end of its line: if n > 0 {"));
        }
        if site.before(2) == "go" {
            return Some(Hint::Naming("go calls a function: go ", site.before(1), "()"));
        }
        self.value_hint()
    }

    /// A hint for the end of a statement that is a value.
    fn value_hint(&self) -> Option<Hint<'t>> {
        let only_sends = self.expected.has("<-")
            && !self.expected.has("1")
            && !self.expected.has(";");
        if self.follows_value() && only_sends {
            return Some(Hint::Plain(VALUE));
        }
        None
    }

    /// A hint for a `{`.
    fn brace_hint(&self) -> Option<Hint<'t>> {
        if matches!(self.first_word(), "if" | "for") && self.statement_has("=", "=") {
            return Some(Hint::Plain("== compares; = assigns"));
        }
        if self.site.before(1) == "if" {
            return Some(Hint::Plain("an if has a condition: if n > 0 { .. }"));
        }
        None
    }

    /// A hint for a `++` or a `--`.
    fn step_hint(&self) -> Option<Hint<'t>> {
        if self.site.is_name(self.site.at.saturating_add(1)) {
            return Some(Hint::Naming("++ and -- stand after the name: ", self.site.after(1), "++"));
        }
        if self.site.is_name_before(1) {
            return Some(Hint::Plain("++ and -- are statements, and give no value"));
        }
        None
    }

    /// A hint for an operator after a value that is a statement.
    fn operator_hint(&self, found: &'t str) -> Option<Hint<'t>> {
        if found == "-" && self.site.after(1) == ">" {
            return Some(if self.first_word() == "func" {
                Hint::Plain("the result stands after the parameters: func f(n int) int")
            } else {
                Hint::Plain("<- sends: c <- 3")
            });
        }
        if !self.follows_value() {
            return None;
        }
        match found {
            "==" => Some(Hint::Plain("= assigns; a comparison is no statement")),
            "+" | "-" | "/" | "%" | "<" | ">" | "<=" | ">=" | "!=" | "&&" | "||" => {
                Some(Hint::Plain(VALUE))
            }
            _ => None,
        }
    }

    /// A hint for a keyword, a name or a number.
    fn word_hint(&self) -> Option<Hint<'t>> {
        let site = &self.site;
        let found = site.found();
        if found == "else" && site.before(1) == NEWLINE && site.before(2) == "}" {
            return Some(Hint::Plain("else stands on the line of the }: } else {"));
        }
        if self.is_keyword_name() && !site.is_name(site.at) {
            return self.reserved_hint(found);
        }
        if let Some(hint) = self.keyword_hint(found) {
            return Some(hint);
        }
        if let Some(hint) = self.type_hint(found) {
            return Some(hint);
        }
        if !site.is_name(site.at) {
            return self.reserved_hint(found);
        }
        self.name_hint(found)
    }

    /// A hint for a keyword that has a meaning in Go.
    fn keyword_hint(&self, found: &'t str) -> Option<Hint<'t>> {
        match found {
            "func" => Some(self.function_hint()),
            "const" => Some(self.constant_hint()),
            "var" if self.site.before(1) == "for" => {
                Some(Hint::Plain("write := in a header: for i := 0; i < 10; i++ { .. }"))
            }
            "struct" if self.wants_type() && self.site.after(2) == "}" => self.empty_hint(),
            "struct" if self.wants_type() => {
                Some(Hint::Plain("a struct type has a name: type T struct { .. }"))
            }
            "range" if self.site.after(1) == "[" => Some(Hint::Plain(NO_RANGE)),
            "type" if self.wants_statement() => {
                Some(Hint::Plain("types are declared outside of functions"))
            }
            _ => match stand_in(&MARKS, found) {
                Some(hint) => Some(Hint::Plain(hint)),
                None => None,
            },
        }
    }

    /// What to write instead of the empty struct as a type.
    fn empty_hint(&self) -> Option<Hint<'t>> {
        let written = match (self.site.before(2), self.site.before(1)) {
            ("chan", "<-") => "chan<- bool",
            ("<-", "chan") => "<-chan bool",
            (_, "chan") => "chan bool",
            _ => "bool",
        };
        Some(Hint::Naming("write ", written, ": there is no empty struct"))
    }

    /// Whether a keyword is used as a name.
    fn is_keyword_name(&self) -> bool {
        matches!(self.site.after(1), ":=" | "=" | ",") && self.wants_statement()
    }

    /// A hint for a `func` in a function.
    fn function_hint(&self) -> Hint<'t> {
        if self.wants_statement() && self.site.is_name(self.site.at.saturating_add(1)) {
            return Hint::Plain("functions are declared outside of functions");
        }
        if self.wants_type() || self.expected.has("struct") {
            return Hint::Plain(
                "functions are no values: start a goroutine, and send to it on a channel",
            );
        }
        Hint::Plain("there are no closures: declare a function, and start it by go f(c)")
    }

    /// A hint for what was written instead of `struct`.
    fn type_hint(&self, found: &'t str) -> Option<Hint<'t>> {
        if !self.expected.has("struct") {
            return None;
        }
        Some(match found {
            "chan" => Hint::Naming(
                "only structs are declared types: write chan .. in place of ",
                self.site.before(1),
                "",
            ),
            _ if stand_in(&NAMES, found) == Some(ONLY_INT) => Hint::Naming(
                "only structs are declared types: write int in place of ",
                self.site.before(1),
                "",
            ),
            _ if self.site.is_name(self.site.at) => {
                Hint::Naming("only structs are declared types: write ", found, " itself")
            }
            _ => Hint::Plain("only structs are declared types: type T struct { .. }"),
        })
    }

    /// A hint for a keyword or a built-in function that is declared as a name.
    fn reserved_hint(&self, found: &'t str) -> Option<Hint<'t>> {
        let begins_word = match found.bytes().next() {
            Some(byte) => byte.is_ascii_alphabetic(),
            None => false,
        };
        let wants_name = self.expected.has("x") && !self.expected.has("1") && !self.wants_type();
        if begins_word && (wants_name || self.is_keyword_name()) {
            return Some(Hint::Naming("", found, " is a keyword: choose another name"));
        }
        None
    }

    /// A hint for a name.
    fn name_hint(&self, found: &'t str) -> Option<Hint<'t>> {
        let site = &self.site;
        if matches!(site.before(1), "break" | "continue") {
            return Some(Hint::Plain(
                "there are no labels: a function of its own is left by return",
            ));
        }
        if let Some(hint) = stand_in(&OPERATORS, found) {
            return Some(Hint::Plain(hint));
        }
        if self.expected.has("else") && is_near(found.as_bytes(), b"else") {
            return Some(Hint::Plain("did you mean else?"));
        }
        if self.expected.has("else") {
            return match stand_in(&STATEMENTS, found) {
                Some(hint) => Some(Hint::Plain(hint)),
                None => None,
            };
        }
        if self.first_word() == "func" && self.expected.has(")") && site.before(2) == "(" {
            return Some(Hint::Plain(if site.after(1) == "," {
                ONE_RESULT
            } else {
                "a result has a type and no name: func f() int"
            }));
        }
        if self.wants_statement() && matches!(site.after(1), ":=" | "=") {
            return Some(Hint::Naming("", found, " is built in: choose another name"));
        }
        None
    }
}

/// Whether this is the name of a built-in function.
pub(crate) fn is_built_in(word: &str) -> bool {
    matches!(word, "print" | "println" | "close" | "make" | "len" | "cap")
}

/// Whether a token is a number.
fn is_digit_first(found: &str) -> bool {
    match found.bytes().next() {
        Some(byte) => byte.is_ascii_digit(),
        None => false,
    }
}

/// The first of these words, separated by spaces, that a misspelt word could mean.
fn near_keyword(word: &str, among: &'static str) -> Option<&'static str> {
    for keyword in among.split(' ') {
        if is_near(word.as_bytes(), keyword.as_bytes()) {
            return Some(keyword);
        }
    }
    None
}
