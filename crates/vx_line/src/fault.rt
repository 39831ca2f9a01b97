/// Why a line is in no form: the first of these that holds.
#[derive(Clone, Copy, Debug, PartialEq, Eq)]
pub enum LineWhy {
    /// It is no UTF-8.
    Utf8,
    /// It names no pass that is there.
    Pass,
    /// Its command is no word of any version.
    Word,
    /// Only a later version has its command, an option, its first piece or its kind.
    Unbuilt,
    /// It misfits the form of its command.
    Form,
}
