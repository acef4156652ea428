/// The names of IN, CERT and OUT.
#[derive(Clone, Copy)]
pub struct MiterNames<'a> {
    pub input: &'a str,
    pub cert: &'a str,
    pub output: &'a str,
}
