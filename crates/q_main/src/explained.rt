//! What a refusal means, in words: the line that a run puts has numbers alone.

// The most words that a line has which is explained.
const WORDS: usize = 6;

// The words of a line; the empty word stands for those that it lacks.
fn words_of(line: &str) -> [&str; WORDS] {
    let mut words = [""; WORDS];
    let mut at = 0;
    for word in line.split_whitespace() {
        if at < WORDS {
            words[at] = word;
            at += 1;
        }
    }
    words
}

// Why a formula is refused.
fn of_formula(cause: &str) -> &'static str {
    match cause {
        "1" => "the header 'p cnf V C' is not of its form",
        "2" => "this belongs neither to a set nor to a clause",
        "3" => "a number is above V of the header",
        "4" => "a variable is quantified twice",
        "5" => "a quantifier stands behind the first clause",
        "6" => "there are more or fewer clauses than C of the header",
        "7" => "the file ends inside a set or a clause",
        "8" => "the formula or the file is larger than is read",
        _ => "",
    }
}

// Why a log is refused.
fn of_log(cause: &str) -> &'static str {
    match cause {
        "1" => "this is no step of a log",
        "2" => "a variable of the step is not in the prefix",
        "3" => "there is no such clause at this step",
        "4" =>
            "the clause is not implied by propagation, and its first literal is no existential pivot",
        "5" => "the first literal is existential, or neither a universal pivot nor reducible",
        "6" =>
            "the fresh variable is there already or out of range, or it would stand behind no existential",
        "7" => "the variable stands in a clause",
        "8" => "more clauses, literals or bytes than are kept",
        "9" => "the steps are valid and end with other quantifier blocks than OUT has",
        "10" => "the steps are valid and end with other clauses than OUT has",
        "12" => "the proof part of the step does not show it",
        _ => "",
    }
}

// Why a proof of a solver is refused: as a log is, but its end has to be the empty clause.
fn of_proof(cause: &str) -> &'static str {
    match cause {
        "11" => "the proof ends, and the empty clause is not there",
        _ => of_log(cause),
    }
}

// Why a trace is refused, or a line of the proof that it is.
fn of_trace(cause: &str) -> &'static str {
    match cause {
        "1" => "this is no line of a trace",
        "2" => "the trace ends before its verdict: the solver was stopped",
        "3" => "the number of the line is not above those before it",
        "4" => "a variable of the line is not in the prefix",
        "5" => "no line is empty, or this one names a line that does not stand before it",
        "6" => "the line names no other, and can't stand by itself",
        "7" => "the two lines have no literal to resolve on",
        "8" => "a number or the file is larger than is read",
        "9" => "both signs of a variable, which can't stand there",
        "10" => "a literal is lost",
        "11" => "a literal is reduced before those that it has to stand behind",
        _ => "",
    }
}

// Why a file of circuits is refused.
fn of_circuits(cause: &str) -> &'static str {
    match cause {
        "1" => "the header 'aag M I L O A' is not of its form, or M is too small",
        "2" => "the line is not of its form",
        "3" => "latches are not read",
        "4" => "an earlier line defines this variable too",
        "5" => "no line defines a variable that is used here",
        "6" => "the gate depends on itself",
        "7" =>
            "a symbol is wrong or missing: each input and output needs one, the number of its variable",
        "8" => "the file ends before all lines of its header have stood",
        "9" => "the file is larger than is read",
        _ => "",
    }
}

// Says of a file's line why it is refused.
fn say(rt: &HostRuntime, file: &str, line: &str, why: &str) {
    if why != "" {
        let _ = eprintln!(rt; "celdrinn: {file}, line {line}: {why}");
    }
}

// Says why circuits don't fit the formula that they are read for.
fn say_of_fit(rt: &HostRuntime, words: &[&str; WORDS]) {
    let (second, third, fourth) = (words[1], words[2], words[3]);
    let _ = match (second, third) {
        ("missing", _) => eprintln!(rt;
            "celdrinn: variable {third} needs a circuit, and the file has none"
        ),
        ("strange", "output") => eprintln!(rt;
            "celdrinn: the file has a circuit for {fourth}, which needs none"
        ),
        ("strange", "input") => eprintln!(rt;
            "celdrinn: a circuit reads {fourth}, which it can't depend on"
        ),
        (_, "reads") => eprintln!(rt;
            "celdrinn: {fourth} does not stand before {second} in the prefix"
        ),
        _ => Ok(()),
    };
}

// What is refused by its line or at its end: the file that a command judges, and why.
fn judged(command: &str, cause: &str) -> (&'static str, &'static str) {
    match command {
        "extract" => ("TRACE", of_trace(cause)),
        "disprove" => ("PROOF", of_proof(cause)),
        _ => ("LOG", of_log(cause)),
    }
}

/// Says on standard error what the line of a refusal by a command means.
pub(crate) fn explain(rt: &HostRuntime, command: &str, line: &str) {
    let words = words_of(line);
    match (words[0], words[1]) {
        ("input", role) => say(rt, role, words[3], of_formula(words[5])),
        ("refused", "line") => {
            let (file, why) = judged(command, words[4]);
            say(rt, file, words[2], why);
        }
        ("refused", "end") => {
            let (file, why) = judged(command, words[3]);
            let _ = eprintln!(rt; "celdrinn: {file}: {why}");
        }
        ("extended", "line") => say(
            rt,
            judged(command, "").0,
            words[2],
            "this literal was dropped by a reduction that can't be carried back",
        ),
        ("circuits", "line") => say(rt, "the circuits", words[2], of_circuits(words[4])),
        ("circuits", _) => say_of_fit(rt, &words),
        _ => {}
    }
}
