// The host's objects as a policy names them.

ghost use Rattle.std.specs.Prelude.{◌≡◌};
ghost use Rattle.policy_globals.specs.Hosts.{host_number, host_members, members_in, host_name, host_global};

/// An object of the host that a policy can grant, whole or by its members.
#[derive(Clone, Copy, Debug, PartialEq, Eq)]
pub enum HostObject {
    /// The global `console`.
    Console,
    /// The global `input`.
    Input,
    /// The global `clock`.
    Clock,
    /// The built-in module `fs`.
    Fs,
}

/// The host number of `console`.
pub const CONSOLE: u32 = 0;
/// The members of `console` with their host numbers.
pub const CONSOLE_MEMBERS: [(&str, u32); 4] = [("log", 1), ("info", 2), ("warn", 3), ("error", 4)];
/// The host number of `input`.
pub const INPUT: u32 = 5;
/// The members of `input` with their host numbers.
pub const INPUT_MEMBERS: [(&str, u32); 1] = [("line", 6)];
/// The host number of `clock`.
pub const CLOCK: u32 = 7;
/// The members of `clock` with their host numbers.
pub const CLOCK_MEMBERS: [(&str, u32); 1] = [("now", 8)];
/// The host number of `fs`.
pub const FS: u32 = 9;
/// The members of `fs` with their host numbers.
pub const FS_MEMBERS: [(&str, u32); 2] = [("readFileSync", 10), ("existsSync", 11)];
/// The number of the first object of the host that is made in a run: those below are there from the start.
pub const FIRST_MADE: u32 = 12;

impl HostObject {
    /// The name by which a policy and a package know it.
    pub fn name(self) -> &'static str
        ensures { result.now ≡ host_name self }
    {
        match self {
            HostObject::Console => "console",
            HostObject::Input => "input",
            HostObject::Clock => "clock",
            HostObject::Fs => "fs",
        }
    }

    /// Its host number.
    pub fn number(self) -> u32
        ensures { result ≡ host_number self }
    {
        match self {
            HostObject::Console => CONSOLE,
            HostObject::Input => INPUT,
            HostObject::Clock => CLOCK,
            HostObject::Fs => FS,
        }
    }

    /// Its members with their host numbers, which rise.
    pub fn members(self) -> &'static [(&'static str, u32)]
        ensures { members_in (λ name. name.now) result.now ≡ host_members self }
    {
        match self {
            HostObject::Console => &CONSOLE_MEMBERS,
            HostObject::Input => &INPUT_MEMBERS,
            HostObject::Clock => &CLOCK_MEMBERS,
            HostObject::Fs => &FS_MEMBERS,
        }
    }
}

/// The object of the host that is the global of a name.
pub fn host_global_of(name: &str) -> Option<HostObject>
    ensures { result ≡ host_global name.now }
{
    if name == "console" {
        Some(HostObject::Console)
    } else if name == "input" {
        Some(HostObject::Input)
    } else if name == "clock" {
        Some(HostObject::Clock)
    } else {
        None
    }
}
