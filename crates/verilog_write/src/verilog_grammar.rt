//! Which bytes spell which design: the lexemes of a design in a subset of IEEE 1364-2005. It stands here as definitions alone.
