/// The names of IN, PROOF and HINTED.
#[derive(Clone, Copy)]
pub struct ShowNames<'a> {
    pub input: &'a str,
    pub proof: &'a str,
    pub hinted: &'a str,
}
