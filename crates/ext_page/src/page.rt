//! The page of a run.
ghost use Rattle.std.specs.Prelude.{◌≡◌, string_bytes, IfOk};
ghost use Rattle.ext_page.specs.Page.{page_text};

use crate::data::data_of;
use crate::markup::{after_data, after_script, after_style, before_style};
use crate::run::RunData;
use crate::script::script;
use crate::style::style;
use std::alloc::{AllocError, Global};

/// The page of a run: fixed text, the run as JSON, fixed text. It shows what failed, the tree, the
/// lanes over time and what nodes shared, and loads nothing from anywhere.
///
/// Takes memory for the text, and fails with `AllocError` only if that is refused. An own rule.
#[tactic(auto, unfolding(crate::specs::Page::page_text))]
pub fn page_of(alloc: Global, run: &RunData) -> Result<String, AllocError>
    ensures { IfOk result (λ page. string_bytes page ≡ page_text run.now) }
{
    let data = data_of(alloc, run)?;
    let mut page = String::new(alloc);
    page.push_str(before_style())?;
    page.push_str(style())?;
    page.push_str(after_style())?;
    page.push_str(data.as_str())?;
    page.push_str(after_data())?;
    page.push_str(script())?;
    page.push_str(after_script())?;
    Ok(page)
}
