/// The names of IN, OUT, LOG and CERT.
#[derive(Clone, Copy)]
pub struct SolveNames<'a> {
    pub input: &'a str,
    pub output: &'a str,
    pub log: &'a str,
    pub cert: &'a str,
}
