// The policy of an application: its two policy files, the override over the policy.

ghost use Rattle.std.specs.Prelude.{◌≡◌, IfOk, string_bytes};
ghost use Rattle.lava_streams.specs.Counts.{Counts};
ghost use Rattle.lava_loading.specs.Policies.{ArePolicies, CountsPolicies, IsOverrideOf, IsPolicyAnswer, IsPolicyAt, IsPolicyFile, is_told, policy_path};
ghost use Rattle.lava_loading.specs.declared.policies.PoliciesFault.TheVariants as fault;

use lava_base::memory::OutOfMemory;
use lava_base::name::Name;
use lava_streams::fault::ReadFault;
use lava_streams::folder::{FileRead, Folder};
use pkg_graph::standing::FILE_LIMIT;
use policy_row::fault::{PolicyFault, PolicyFile, PolicyWhat};
use policy_row::merging::merge;
use policy_row::policy::Policy;
use policy_row::reading::read_policy;
use std::alloc::Global;

/// Where the policy files stand below the application's folder.
pub const POLICY_DIRECTORY: &str = "/lavamoat/node/";

/// Why the policy of an application is not read.
#[derive(Drop)]
pub enum PoliciesFault {
    /// A file is no policy: which, the row and the key of what is wrong there, each empty where there is none, and what is wrong.
    Bad {
        file: PolicyFile,
        row: Name,
        key: Name,
        what: PolicyWhat,
    },
    /// A file has more than `FILE_LIMIT` bytes.
    TooLong,
    /// A call on the folder failed.
    Folder,
    /// There is no memory left.
    OutOfMemory,
}

impl From<OutOfMemory> for PoliciesFault {
    ghost from_gives = { λ _ f. f ≡ fault.OutOfMemory };

    fn from(_: OutOfMemory) -> PoliciesFault {
        PoliciesFault::OutOfMemory
    }
}

/// The path of a policy file of the application in a directory.
fn policy_path(alloc: Global, directory: &str, file: PolicyFile) -> Result<String, OutOfMemory>
    ensures { IfOk result (λ path. string_bytes path ≡ policy_path directory.now file) }
{
    let mut path = String::from_str(alloc, directory)?;
    path.push_str(POLICY_DIRECTORY)?;
    path.push_str(file.name())?;
    Ok(path)
}

/// What a policy file holds.
fn read_file<F: Folder>(
    alloc: Global,
    directory: &str,
    file: PolicyFile,
    folder: &mut F,
) -> Result<FileRead, ReadFault>
    ensures tells { (F.stand folder.new).told ≡ (F.stand folder.old).told }
    ensures counts { Counts (F.stand folder.old).count (F.stand folder.new).count result }
    ensures gives { let told = (F.stand folder.old).told in
        IfOk result (IsPolicyFile told directory.now file) }
{
    let path = policy_path(alloc, directory, file)?;
    folder.read(alloc, path.as_str(), FILE_LIMIT)
}

/// Why a file is no policy, as it is told.
fn told(fault: PolicyFault) -> PoliciesFault
    ensures { result ≡ is_told fault }
{
    match fault {
        PolicyFault::Bad {
            file,
            row,
            key,
            what,
        } => PoliciesFault::Bad {
            file,
            row,
            key,
            what,
        },
        PolicyFault::OutOfMemory => PoliciesFault::OutOfMemory,
    }
}

/// The policy that a file of these bytes is.
fn policy_of(alloc: Global, file: PolicyFile, bytes: &[u8]) -> Result<Policy, PoliciesFault>
    ensures { IsPolicyAnswer file (FileRead.Bytes bytes.now) result }
{
    match read_policy(alloc, file, bytes) {
        Ok(policy) => Ok(policy),
        Err(fault) => Err(told(fault)),
    }
}

/// The policy that a file is: the empty one where there is no file.
fn policy_in(alloc: Global, file: PolicyFile, read: FileRead) -> Result<Policy, PoliciesFault>
    ensures { IsPolicyAnswer file read result }
{
    match read {
        FileRead::Absent => Ok(Policy::new(alloc)),
        FileRead::Longer => Err(PoliciesFault::TooLong),
        FileRead::Bytes(bytes) => policy_of(alloc, file, bytes.as_slice()),
    }
}

/// Reads one of the policy files.
fn read_one<F: Folder>(
    alloc: Global,
    directory: &str,
    file: PolicyFile,
    folder: &mut F,
) -> Result<Policy, PoliciesFault>
    ensures tells { (F.stand folder.new).told ≡ (F.stand folder.old).told }
    ensures counts { CountsPolicies (F.stand folder.old).count (F.stand folder.new).count result }
    ensures gives { let told = (F.stand folder.old).told in
        IsPolicyAt told directory.now file result }
{
    match read_file(alloc, directory, file, folder) {
        Ok(read) => policy_in(alloc, file, read),
        Err(ReadFault::Failed) => Err(PoliciesFault::Folder),
        Err(ReadFault::OutOfMemory) => Err(PoliciesFault::OutOfMemory),
    }
}

/// Reads the override, and puts it over a policy.
fn read_override<F: Folder>(
    alloc: Global,
    directory: &str,
    policy: &Policy,
    folder: &mut F,
) -> Result<Policy, PoliciesFault>
    ensures tells { (F.stand folder.new).told ≡ (F.stand folder.old).told }
    ensures counts { CountsPolicies (F.stand folder.old).count (F.stand folder.new).count result }
    ensures gives { let told = (F.stand folder.old).told in
        IsOverrideOf told directory.now policy.now result }
{
    let over = read_one(alloc, directory, PolicyFile::Override, folder)?;
    Ok(merge(alloc, policy, &over)?)
}

/// Reads both policy files of the application in a directory, `policy.json` first, and gives the policy that the override makes of it. A file that is absent is the empty policy.
///
/// # Errors
///
/// `Bad` for the first file that is no policy, `TooLong` for one past `FILE_LIMIT` bytes, `Folder` where a call on the folder failed. The override is read where `policy.json` is a policy.
pub fn read_policies<F: Folder>(
    alloc: Global,
    directory: &str,
    folder: &mut F,
) -> Result<Policy, PoliciesFault>
    ensures tells { (F.stand folder.new).told ≡ (F.stand folder.old).told }
    ensures counts { CountsPolicies (F.stand folder.old).count (F.stand folder.new).count result }
    ensures gives { let told = (F.stand folder.old).told in
        ArePolicies told directory.now result }
{
    let policy = read_one(alloc, directory, PolicyFile::Main, folder)?;
    read_override(alloc, directory, &policy, folder)
}
