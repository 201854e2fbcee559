//! Hints for what Go has in packages, and for pointers to it.

use crate::hint::Hint;
use crate::known::{MEMBERS, METHODS, PACKAGES, stand_in};
use crate::trouble::Trouble;

impl<'t> Trouble<'_, 't> {
    /// What to write instead of the package that is imported.
    pub(crate) fn import_hint(&self) -> &'static str {
        for count in 1..4 {
            let path = self.site.after(count).trim_matches('"');
            let name = path.rsplit('/').next().unwrap_or("");
            if let Some(hint) = stand_in(&PACKAGES, name) {
                return hint;
            }
        }
        "there are no imports: print and println are built in"
    }

    /// A hint for a call of `name` in a package, or on a value.
    pub(crate) fn selected_hint(&self, whole: &'t str, name: &'t str) -> Hint<'t> {
        if let Some(hint) = self.package_hint(whole, name) {
            return hint;
        }
        if let Some(hint) = stand_in(&METHODS, name) {
            return Hint::Plain(hint);
        }
        Hint::Naming(
            "there are no packages and no methods: declare func ",
            name,
            ", and give it what it needs as arguments",
        )
    }

    /// What to write instead of `name` of Go's package `package`, if that is one.
    pub(crate) fn package_hint(&self, package: &str, name: &str) -> Option<Hint<'t>> {
        let whole = stand_in(&PACKAGES, package)?;
        Some(Hint::Plain(stand_in(&MEMBERS, name).unwrap_or(whole)))
    }

    /// A hint for a misplaced `.`.
    pub(crate) fn period_hint(&self) -> Option<Hint<'t>> {
        let site = &self.site;
        if site.after(2) == "(" {
            return Some(self.selected_hint(site.before(1), site.after(1)));
        }
        if let Some(hint) = self.package_hint(site.before(1), site.after(1)) {
            return Some(hint);
        }
        if site.is_name_before(1) && !self.expected.has("x") {
            return Some(Hint::Plain("there are no packages: declare the type in this file"));
        }
        None
    }

    /// A hint for a `*` or a `&` before an operand or a type.
    pub(crate) fn pointer_hint(&self) -> Option<Hint<'t>> {
        if self.site.before(1) == "*" {
            return Some(Hint::Plain("** is no operator: multiply in a loop"));
        }
        if let Some(hint) = self.package_hint(self.site.after(1), self.site.after(3)) {
            return Some(hint);
        }
        if self.is_in_struct() {
            return Some(Hint::Plain(
                "there are no pointers: a channel can be the link: docs/GO.md#list",
            ));
        }
        if self.first_word() == "func" {
            return Some(Hint::Plain(
                "there are no pointers: a struct is copied, so return the changed one",
            ));
        }
        if self.expected.has("x") {
            return Some(Hint::Plain(
                "there are no pointers: send a struct, or a channel to answer on",
            ));
        }
        None
    }
}
