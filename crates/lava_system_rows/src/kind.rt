// What a line asks for.

/// What a line asks for.
#[derive(Clone, Copy, Debug)]
pub enum Kind {
    /// `run SOURCE`: runs this file, over objects in memory.
    Run,
    /// `trace SOURCE`: prints the trace of a run of this file, over objects in memory.
    Trace,
    /// `app COMMAND FILES`: runs an application of several files, each `PATH=TEXT`, with a tab between two.
    App,
    /// `tree SOURCE`: prints the term of this file, over objects in memory.
    Tree,
    /// `words WORDS`: calls the program with these words.
    Words,
    /// `missing`: runs a folder without the file.
    Missing,
    /// `bytes N`: runs a file of this many bytes.
    Bytes,
    /// `policy MAIN OVERRIDE`: runs a folder with these policy files.
    Policy,
    /// `policy_bytes N`: runs a folder with a policy file of this many bytes.
    PolicyBytes,
    /// `folder N WORDS`: the N-th call on the folder fails, of these words, or of `run app`.
    FolderFails,
    /// `output N WORDS`: the N-th call on the output fails, of these words, or of `run app`.
    OutputFails,
    /// `output_app N COMMAND FILES`: the same of an application of several files.
    OutputFailsOfApp,
    /// `errors N`: the N-th call on the errors fails.
    ErrorsFail,
    /// `read LIMIT PATH`: reads one of the system's files.
    Read,
    /// `list PATH`: lists one of the system's directories.
    List,
    /// `list_empty`: lists a new directory.
    ListEmpty,
    /// `lines TEXT`: reads the lines of a pipe, by two bytes at a time.
    Lines,
    /// `long_lines`: reads lines about the limit.
    LongLines,
    /// `halting_source`: reads lines of a stream that halts.
    HaltingSource,
    /// `halting_sink`: puts into a stream that halts.
    HaltingSink,
    /// `put PIECES`: puts these pieces into a file, and reads it.
    Put,
    /// `full`: puts into a full device.
    Full,
    /// `clock`: takes a moment.
    Clock,
}

static KINDS: [(&str, Kind); 23] = [
    ("run", Kind::Run),
    ("trace", Kind::Trace),
    ("app", Kind::App),
    ("tree", Kind::Tree),
    ("words", Kind::Words),
    ("missing", Kind::Missing),
    ("bytes", Kind::Bytes),
    ("policy", Kind::Policy),
    ("policy_bytes", Kind::PolicyBytes),
    ("folder", Kind::FolderFails),
    ("output", Kind::OutputFails),
    ("output_app", Kind::OutputFailsOfApp),
    ("errors", Kind::ErrorsFail),
    ("read", Kind::Read),
    ("list", Kind::List),
    ("list_empty", Kind::ListEmpty),
    ("lines", Kind::Lines),
    ("long_lines", Kind::LongLines),
    ("halting_source", Kind::HaltingSource),
    ("halting_sink", Kind::HaltingSink),
    ("put", Kind::Put),
    ("full", Kind::Full),
    ("clock", Kind::Clock),
];

/// The kind of that name.
pub fn kind_of(name: &str) -> Option<Kind> {
    for (word, kind) in &KINDS {
        if *word == name {
            return Some(*kind);
        }
    }
    None
}
