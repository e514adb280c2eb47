/// Where in a condition its reader is: what may still follow depends on it.
#[derive(Clone, Copy, Debug)]
pub enum Mode {
    /// Only bare atoms were there, so that OR may follow.
    Atoms,
    /// A public condition was there.
    Mixed,
    /// In parentheses.
    Inside,
    /// Behind them.
    Behind,
    /// A bare OR was there.
    Apart,
}
