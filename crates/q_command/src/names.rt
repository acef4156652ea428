/// The names of IN, OUT and LOG.
#[derive(Clone, Copy)]
pub struct Names<'a> {
    pub input: &'a str,
    pub output: &'a str,
    pub log: &'a str,
}
