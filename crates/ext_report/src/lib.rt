//! The report of a test run, as text, for people at a terminal, as JSON lines, as a tree or in
//! JUnit's XML, from the results of its nodes (`ext_lifecycle`).
//!
//! JUnit has none of these forms but the last.
#![tactic(auto)]

mod cases;
mod colors;
mod extra;
mod form;
mod grouping;
mod is_status;
mod json_lines;
mod json_text;
mod junit_xml;
mod line;
mod names;
mod report;
mod reserve;
mod slow;
mod terminal_lines;
mod totals;
mod tree_lines;
mod visible;
mod xml;

pub use colors::{is_dumb, wants_colors};
pub use ext_lifecycle::{NodeResult, Status};
pub use extra::{Extra, write_seconds};
pub use form::{ReportForm, report_in};
pub use grouping::grouped;
pub use json_lines::{json_report, json_report_with};
pub use json_text::{printed_json, write_json};
pub use junit_xml::{junit_report, junit_report_with};
pub use report::{any_failed, report_text, report_text_with};
pub use reserve::leave_out_reserve;
pub use slow::slowest_tests;
pub use terminal_lines::terminal_report;
pub use tree_lines::{depth_first, tree_report, tree_report_with, write_head};
pub use visible::{shown_text, write_visible, write_visible_lines};
