//! What is said where words of `check` exclude each other.

/// Says which two words of `check` exclude each other, or which are missing for `--report`.
pub(crate) fn clash_in(form: bool, lint: bool, races: bool, tree: bool) -> &'static str {
    if form && !races && !lint {
        "the argument '--report' cannot be used without '--races' or '--lint'"
    } else if lint {
        clash_with_lint(races, tree)
    } else {
        clash_of(races, tree)
    }
}

/// Says which flag of `check` excludes `--lint`: `--all` unless one of the others is given.
fn clash_with_lint(races: bool, tree: bool) -> &'static str {
    if races {
        "the argument '--lint' cannot be used with '--races'"
    } else if tree {
        "the argument '--lint' cannot be used with '--tree'"
    } else {
        "the argument '--lint' cannot be used with '--all'"
    }
}

/// Says which two flags of `check` exclude each other, where `--all` is one of them unless the
/// others are.
fn clash_of(races: bool, tree: bool) -> &'static str {
    if races && tree {
        "the argument '--tree' cannot be used with '--races'"
    } else if tree {
        "the argument '--all' cannot be used with '--tree'"
    } else {
        "the argument '--all' cannot be used with '--races'"
    }
}
