//! Hints for what the language has, but not at this point of a program: literals in headers, and built-in functions after `go`; and
//! for structs whose type has no name.

use crate::hint::Hint;
use crate::trouble::{Trouble, is_built_in};

impl<'t> Trouble<'_, 't> {
    /// A hint for a literal in a header or one of a struct type without a name, or for a built-in function after `go`.
    pub(crate) fn misplaced_hint(&self) -> Option<Hint<'t>> {
        let found = self.site.found();
        if self.is_literal_in_header() {
            return Some(Hint::Plain(
                "the header of an if or for holds no literal: assign it to a variable first",
            ));
        }
        if self.site.before(1) == "go" && is_built_in(found) {
            return Some(self.started_hint(found));
        }
        if found == "struct" && self.expected.has("1") {
            return Some(self.unnamed_hint());
        }
        None
    }

    /// Whether the fault is the `{` of a literal in a header, or is within the braces of one, on their line.
    fn is_literal_in_header(&self) -> bool {
        let site = &self.site;
        let brace = if site.found() == "{" {
            Some(site.at)
        } else {
            self.nesting.innermost()
        };
        let Some(brace) = brace else {
            return false;
        };
        let Some(name) = brace.checked_sub(1) else {
            return false;
        };
        let begins_header = matches!(
            site.word_at(site.start_before(brace)),
            "if" | "for" | "else"
        );
        let begins_literal = site.word_at(brace) == "{"
            && self.is_declared("type", site.word_at(name));
        begins_header && begins_literal && site.line_number(brace) == site.line_number(site.at)
    }

    /// A hint for a built-in function that is started as a goroutine.
    fn started_hint(&self, found: &'t str) -> Hint<'t> {
        let closes_name = self.site.after(1) == "("
            && self.site.is_name(self.site.at.saturating_add(2))
            && self.site.after(3) == ")";
        match found {
            "close" if closes_name => Hint::Naming(
                "go starts a function of the program: write one that closes ",
                self.site.after(2),
                "",
            ),
            "print" | "println" => {
                Hint::Plain("go starts a function of the program: write one that prints")
            }
            _ => Hint::Plain("go starts a function of the program"),
        }
    }

    /// A hint for a literal of a struct type without a name.
    fn unnamed_hint(&self) -> Hint<'t> {
        let first = self.site.at.saturating_add(2);
        if self.site.word_at(first) == "}" {
            return Hint::Plain("there is no empty struct: send true on a chan bool");
        }
        Hint::Naming(
            "declare the type outside of functions: type t struct { ",
            self.fields_from(first).unwrap_or(".."),
            " }",
        )
    }

    /// The text from the token with the index `first` up to the next `}`, if that is on its line.
    fn fields_from(&self, first: usize) -> Option<&'t str> {
        for index in first..self.site.tokens.len() {
            if self.site.word_at(index) == "}" {
                return self.site.between(first, index.saturating_sub(1));
            }
        }
        None
    }
}
