//! Refusals of programs.

use anyhow::Result;
use kind_core::{BuildError, Why};
use std::fmt::Write;

/// Adds the place and the number of a refusal, and of a helper its own number.
pub(crate) fn push_refusal(out: &mut String, error: BuildError) -> Result<()> {
    let BuildError::Refused(refused) = error else {
        return Ok(out.push_str("no memory")?);
    };
    let (at, number) = (refused.at, refused.why.number());
    match refused.why {
        Why::Helper(id) => Ok(write!(out, "refused {at} {number} {id}")?),
        _ => Ok(write!(out, "refused {at} {number}")?),
    }
}
