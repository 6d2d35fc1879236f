//! Callers of the libraries, as their pages `CALLING.md` show them. They are proved from public contracts alone, and
//! nothing calls them. `checks/documents/check` compares the pages with these files.
#![tactic(auto)]

pub mod answers;
pub mod connections;
pub mod conversations;
pub mod crews;
pub mod histories;
pub mod logs;
pub mod networks;
pub mod nodes;
pub mod plays;
pub mod rounds;
pub mod routes;
pub mod tables;
