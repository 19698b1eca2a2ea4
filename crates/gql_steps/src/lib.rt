//! The steps of an execution (GraphQL specification, 6): plans of fields, how their values are
//! resolved, and how leaves, names, nulls and errors are written into an answer. `specs/Execution`
//! defines what an execution is. `gql_deep` and `gql_exec` execute by these steps, so its modules
//! are public.
#![tactic(auto)]

mod asked;
pub mod columns;
pub mod credit;
pub mod direct;
pub mod direct_field;
pub mod direct_items;
pub mod ended;
pub mod equal_sets;
mod filter;
pub mod introspection;
pub mod items;
pub mod kinds;
pub mod laws;
pub mod leaves;
pub mod nulls;
pub mod outcome;
pub mod planning;
mod prints;
pub mod refusal;
pub mod resolve;
pub mod run;
mod same;
pub mod setting;
pub mod site;
pub mod steps;
pub mod strings;
pub mod table;
pub mod values;
