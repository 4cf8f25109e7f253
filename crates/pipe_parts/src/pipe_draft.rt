//! What is worked out of a program before the parts of its pipeline are made: [`pipeline_plan_of`] makes a pipeline plan, and [`stage_sources`] says what stands after each
//! place.

mod error;
mod forms;
mod kept;
pub mod laws;
mod pipeline_plan;
mod places;
mod sites;
mod sources;

pub use error::PipelinePlanError;
pub use pipeline_plan::{PipelinePlan, pipeline_plan_of};
pub use places::{StageSources, sites_of, stage_sources};
