/// The names of IN, OUT, LOG, HERBRAND and CERT.
#[derive(Clone, Copy)]
pub struct RefuteNames<'a> {
    pub input: &'a str,
    pub output: &'a str,
    pub log: &'a str,
    pub herbrand: &'a str,
    pub cert: &'a str,
}
