/// Which commands a reader takes.
#[derive(Clone, Copy)]
pub enum Scope {
    /// Those that the hub makes so far.
    Made,
    /// All that are read.
    Read,
}
