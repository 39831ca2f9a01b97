use vx_data::{Numbers, Text};

/// What a verticle is to be: the name of its kind, and what the kind is given. (That kinds go by name, in place of classes,
/// is this project's own.)
pub struct KindSpec {
    pub kind: Text,
    /// The address at which it works: 1 to 1,024 bytes.
    pub address: Text,
    /// The address to which it sends on: 1 to 1,024 bytes.
    pub to: Text,
    /// Whole numbers, whose meaning the kind gives.
    pub config: Numbers,
}

/// Written by hand, so that a function that lets go of a spec has no case for each of its parts.
impl Drop for KindSpec {
    fn drop(self) {
        let KindSpec {
            kind: _,
            address: _,
            to: _,
            config: _,
        } = self;
    }
}
