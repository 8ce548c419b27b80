// The functions of the host.

ghost use Rattle.std.specs.Prelude.{◌≡◌};
ghost use Rattle.lava_host.specs.Functions.{function_of};

/// A function of the host, in the order of the host's numbers.
#[derive(Clone, Copy, Debug, PartialEq, Eq)]
pub enum HostFunction {
    /// `console.log`, number 1.
    Log,
    /// `console.info`, number 2.
    Info,
    /// `console.warn`, number 3.
    Warn,
    /// `console.error`, number 4.
    Error,
    /// `input.line`, number 6.
    Line,
    /// `clock.now`, number 8.
    Now,
    /// `fs.readFileSync`, number 10.
    ReadFileSync,
    /// `fs.existsSync`, number 11.
    ExistsSync,
}

impl HostFunction {
    /// The function of a host number. The numbers 0, 5, 7 and 9 are objects that hold functions.
    pub fn of(number: u32) -> Option<HostFunction>
        ensures { result ≡ function_of number }
    {
        match number {
            1 => Some(HostFunction::Log),
            2 => Some(HostFunction::Info),
            3 => Some(HostFunction::Warn),
            4 => Some(HostFunction::Error),
            6 => Some(HostFunction::Line),
            8 => Some(HostFunction::Now),
            10 => Some(HostFunction::ReadFileSync),
            11 => Some(HostFunction::ExistsSync),
            _ => None,
        }
    }
}
