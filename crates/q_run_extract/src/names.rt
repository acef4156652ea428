/// The names of IN, TRACE and CERT.
#[derive(Clone, Copy)]
pub struct ExtractNames<'a> {
    pub input: &'a str,
    pub trace: &'a str,
    pub cert: &'a str,
}
