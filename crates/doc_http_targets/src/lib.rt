//! Targets of requests: the route that one has, the page that it names, and what its query asks for.
#![tactic(auto)]

pub mod edit_route;
pub mod laws;
mod origin_form;
pub mod people_route;
pub mod query;
pub mod route;
pub mod routes;
pub mod written_folder;
pub mod written_path;
