/// The rules by which the machine that runs a policy decides.
#[derive(Clone, Copy, Debug, PartialEq, Eq)]
pub enum Rules {
    /// The tool's own rules.
    Plain,
    /// At the places where the two differ, the choices of a kernel's sched_ext.
    Linux,
}
