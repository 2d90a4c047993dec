/// How the body lines of a document are read.
#[derive(Clone, Copy)]
pub enum Setting {
    /// The values of a map are in lexicographic order, and each line of a list is a member.
    Plain,
    /// The values of a map are in reverse lexicographic order.
    Revlex,
    /// Each line of a list gives its member and the negative of it.
    Half,
}
