/// So many bytes a script may have.
pub const LIMIT: usize = 67_108_864;
