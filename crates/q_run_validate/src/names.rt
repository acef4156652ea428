/// The names of IN and CERT.
#[derive(Clone, Copy)]
pub struct ValidateNames<'a> {
    pub input: &'a str,
    pub cert: &'a str,
}
