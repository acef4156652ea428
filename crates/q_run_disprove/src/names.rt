/// The names of IN and PROOF.
#[derive(Clone, Copy)]
pub struct DisproveNames<'a> {
    pub input: &'a str,
    pub proof: &'a str,
}

/// The names of IN, PROOF and CERT.
#[derive(Clone, Copy)]
pub struct CertifyNames<'a> {
    pub input: &'a str,
    pub proof: &'a str,
    pub cert: &'a str,
}
