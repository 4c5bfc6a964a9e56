/// What a row of an access control list allows (Bensoussan, Clingen and Daley 1972): nothing, to
/// read, to write, or both.
#[derive(Clone, Copy, Debug, PartialEq, Eq)]
pub enum Mode {
    /// Neither.
    Null,
    /// To read words alone.
    Read,
    /// To write words alone.
    Write,
    /// To read and to write words.
    Both,
}
