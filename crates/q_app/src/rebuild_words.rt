//! The five names of `rebuild` and `refute`: words that are five and differ.
ghost use Rattle.std.specs.Prelude.{◌≡◌, ◌&&◌, option_map};
ghost use Rattle.q_app.specs.Rebuilds.{five};
ghost use Rattle.q_app.specs.RebuildWords.{are_four as spec_are_four, is_new as spec_is_new, rebuild_names};
ghost use Rattle.q_app.specs.Operands.{texts};

/// The names of the five files of `rebuild`.
#[derive(Clone, Copy)]
pub(crate) struct RebuildNames<'a> {
    pub input: &'a str,
    pub output: &'a str,
    pub log: &'a str,
    pub skolem: &'a str,
    pub cert: &'a str,
}

/// The names that the operands are, if they are five and differ.
pub(crate) fn parse_rebuild(operands: &[String]) -> Option<RebuildNames>
    ensures { option_map
        (λ o. five o.input.now o.output.now o.log.now o.skolem.now o.cert.now) result
        ≡ rebuild_names (texts operands.now) }
{
    if operands.len() != 5 {
        return None;
    }
    let input = operands[0].as_str();
    let output = operands[1].as_str();
    let log = operands[2].as_str();
    let skolem = operands[3].as_str();
    let cert = operands[4].as_str();
    if !are_apart(input, output, log, skolem, cert) {
        return None;
    }
    Some(RebuildNames {
        input,
        output,
        log,
        skolem,
        cert,
    })
}

fn is_new(a: &str, b: &str, c: &str, d: &str, e: &str) -> bool
    ensures { result ≡ spec_is_new a.now b.now c.now d.now e.now }
{
    a != b && a != c && a != d && a != e
}

fn are_four(a: &str, b: &str, c: &str, d: &str) -> bool
    ensures { result ≡ spec_are_four a.now b.now c.now d.now }
{
    a != b && a != c && a != d && b != c && b != d && c != d
}

fn are_apart(a: &str, b: &str, c: &str, d: &str, e: &str) -> bool
    ensures { result
        ≡ (spec_is_new a.now b.now c.now d.now e.now && spec_are_four b.now c.now d.now e.now) }
{
    is_new(a, b, c, d, e) && are_four(b, c, d, e)
}
