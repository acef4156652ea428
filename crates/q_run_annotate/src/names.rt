/// The names of IN, OUT, LOG and HINTED.
#[derive(Clone, Copy)]
pub struct AnnotateNames<'a> {
    pub input: &'a str,
    pub output: &'a str,
    pub log: &'a str,
    pub hinted: &'a str,
}
