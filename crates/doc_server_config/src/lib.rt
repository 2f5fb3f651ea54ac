//! The configuration of a site: its settings, its readers and its pages, as a TOML document has them.
//!
//! Of it `listen` alone reads its bounds, the folders whose files are pages, the names of readers, and what it says of the pages for
//! people.
//!
//! What a folder holds no contract can say. What is trusted: that the system names each file of a folder, and tells files from folders
//! and links.
#![tactic(auto)]

pub mod bad_file;
pub mod bounds;
pub mod browsing;
pub mod browsing_keys;
pub mod browsing_texts;
pub mod config;
pub mod document;
pub mod except;
pub mod file_name;
pub mod folder;
pub mod folder_pages;
pub mod folder_reading;
pub mod folder_rules;
mod growth;
pub mod listening;
pub mod markdown;
pub mod media_names;
pub mod overlap;
pub mod page_row;
pub mod reader_names;
pub mod readme;
pub mod reason;
pub mod seen;
pub mod settings;
pub mod table;
pub mod taken;
pub mod walk;
