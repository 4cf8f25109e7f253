// Where a step leads.

/// The next step follows, the run has ended with a verdict, or there is no case.
#[derive(Clone, Copy)]
pub(crate) enum Flow {
    Next,
    Ended(u32),
    Stuck,
}
