//! Texts that the processes of a run share, by a folder of files and the locks of the system on them.
//!
//! A store is of one process. What one process has started, as a server, another may use by a text:
//! an address, a path. `shared_text` gives the text of a name, made once in the folder of a run;
//! whoever begins the run closes what the folder holds (`RunFolder`). An own rule, for JUnit 5 User
//! Guide, section "Keeping State in Extensions".
#![tactic(auto)]

mod closing;
mod files;
mod name;
mod run_folder;
mod sharing;

pub use closing::TextCloser;
pub use name::is_text_name;
pub use run_folder::{RunFolder, sweep};
pub use sharing::{SharedFault, SharedText, shared_text};
