//! Sentences about a piece of the program, which replaces `{}`.

use go_text::{LimitKind, Rule};

/// What is wrong if a typing rule is violated.
pub(crate) fn phrase_of_rule(rule: Rule) -> &'static str {
    match rule {
        Rule::Main => "function main is undeclared, or has parameters or a result",
        Rule::Declared => "a name is redeclared or reserved: {}",
        Rule::Visible => "undefined here, or not what is wanted here: {}",
        Rule::Struct => "invalid struct type: it contains itself or has a field twice: {}",
        Rule::Operands => "invalid operation: {} (the operands do not fit the operator)",
        Rule::Constant => {
            "{} (constant) overflows int, divides by zero, or is a negative shift count"
        }
        Rule::Assignable => "cannot use {} here: its type is not the one that is wanted",
        Rule::Numbers => "the numbers of names, values, arguments or fields differ: {}",
        Rule::NewName => "no new variables on left side of :=",
        Rule::Assigned => "cannot assign to {}: it is no variable and no field of one",
        Rule::Direction => "invalid operation: {} (the channel's direction does not allow it)",
        Rule::Channel => "invalid operation: {} is no channel",
        Rule::Nil => "use of nil where no channel type is known",
        Rule::Condition => "non-boolean condition: {}",
        Rule::Returned => "a return has a value exactly where its function has a result",
        Rule::Terminating => "missing return",
        Rule::Branch => "{} is not in a loop (break also stands in a select)",
        Rule::Called => "{} calls no function, or one without a result is used as a value",
        Rule::Made => {
            "cannot make {}: make wants a channel type and a size that is an int and not negative"
        }
        Rule::OneDefault => "multiple defaults in select",
    }
}

/// What is wrong if a limit is exceeded.
pub(crate) fn phrase_of_limit(kind: LimitKind) -> &'static str {
    match kind {
        LimitKind::ConstantSize => "constant {} is over 2^100 in size",
        _ => "a limit of the language is exceeded: {}",
    }
}
