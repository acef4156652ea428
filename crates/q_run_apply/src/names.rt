/// The names of IN, LOG and OUT.
#[derive(Clone, Copy)]
pub struct ApplyNames<'a> {
    pub input: &'a str,
    pub log: &'a str,
    pub output: &'a str,
}
