//! Designs of pipelines through a load and after it. There is no code but for the law.

pub mod laws;
