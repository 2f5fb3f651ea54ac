//! The files that a configuration names: what stands in them, and the site that they give, with the pages and media of its folders. Folders
//! are read a part at a time.
#![tactic(auto)]

pub mod bounded;
pub mod files;
pub mod folder_rows;
pub mod gathered_media;
pub mod looking;
pub mod moving;
mod resolved_folder;
pub mod rows_reading;
pub mod seen_files;
pub mod site_fault;
pub mod site_store;
pub mod told_faults;
pub mod written;
