//! Whether the user of a terminal wants colours. No contract says so: the kit has none of the environment.
use std::env;
use std::rt::Env;

/// Tests whether the user wants colours: unless the environment has a `NO_COLOR` that is not empty,
/// or a `TERM` of `dumb`. Takes memory for the texts of these.
pub fn wants_colors<R: Env + AllocGlobal>(rt: &R) -> bool {
    !has_no_color(rt) && !is_dumb(rt)
}

/// Tests whether `NO_COLOR` is there and not empty.
fn has_no_color<R: Env + AllocGlobal>(rt: &R) -> bool {
    match env::var(rt, "NO_COLOR") {
        Ok(value) => !value.is_empty(),
        Err(fault) => fault != env::VarError::NotPresent,
    }
}

/// Tests whether the terminal knows no orders: whether `TERM` is `dumb`. Takes memory for its text.
pub fn is_dumb<R: Env + AllocGlobal>(rt: &R) -> bool {
    match env::var(rt, "TERM") {
        Ok(value) => value.as_str() == "dumb",
        Err(_) => false,
    }
}
