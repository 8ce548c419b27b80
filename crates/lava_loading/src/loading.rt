// Loading an application.

ghost use Rattle.std.specs.Prelude.{◌≡◌};
ghost use Rattle.lava_loading.specs.Loads.{AreReachedIn, AreSources, CountsLoading, IsLoading, IsLoadingIn, IsLoadingOf};

use crate::policies::{PoliciesFault, read_policies};
use lava_streams::folder::Folder;
use pkg_graph::fault::GraphFault;
use pkg_graph::graph::{Graph, read_graph};
use pkg_load::fault::LoadFault;
use pkg_load::load::{Application, load};
use pkg_source::code::{ModuleCode, discard};
use pkg_source::reader::SourceReader;
use policy_row::policy::Policy;
use std::alloc::Global;

/// An application, with its policy.
#[derive(Drop)]
pub struct LoadedApplication {
    pub app: Application<ModuleCode>,
    /// What the override makes of its policy.
    pub policy: Policy,
}

impl LoadedApplication {
    /// Lets an application go.
    pub fn discard(self) {
        let LoadedApplication { app, policy: _ } = self;
        discard(app);
    }
}

/// Why no application is loaded.
#[derive(Drop)]
pub enum LoadingFault {
    /// Its packages are not read.
    Graph(GraphFault),
    /// Its policy is not read.
    Policies(PoliciesFault),
    /// Its modules are not loaded.
    Load(LoadFault),
}

/// Loads the modules that are reached in the packages of an application, which has this policy.
fn load_modules<F: Folder>(
    alloc: Global,
    directory: &str,
    graph: Graph,
    policy: Policy,
    folder: &mut F,
) -> Result<LoadedApplication, LoadingFault>
    ensures tells { (F.stand folder.new).told ≡ (F.stand folder.old).told }
    ensures counts { CountsLoading (F.stand folder.old).count (F.stand folder.new).count result }
    ensures loads { let told = (F.stand folder.old).told in
        IsLoadingOf told directory.now graph policy result }
{
    let reader = SourceReader;
    match load(alloc, directory, graph, &reader, folder) {
        Ok(app) => Ok(LoadedApplication { app, policy }),
        Err(fault) => Err(LoadingFault::Load(fault)),
    }
}

/// Reads the policy of an application with these packages, and loads the modules that are reached.
fn load_packages<F: Folder>(
    alloc: Global,
    directory: &str,
    graph: Graph,
    folder: &mut F,
) -> Result<LoadedApplication, LoadingFault>
    ensures tells { (F.stand folder.new).told ≡ (F.stand folder.old).told }
    ensures counts { CountsLoading (F.stand folder.old).count (F.stand folder.new).count result }
    ensures loads { let told = (F.stand folder.old).told in
        IsLoadingIn told directory.now graph result }
{
    match read_policies(alloc, directory, folder) {
        Ok(policy) => load_modules(alloc, directory, graph, policy, folder),
        Err(fault) => Err(LoadingFault::Policies(fault)),
    }
}

/// Reads the packages of the application in a directory and then its policy, and loads the modules that are reached.
pub fn load_application<F: Folder>(
    alloc: Global,
    directory: &str,
    folder: &mut F,
) -> Result<LoadedApplication, LoadingFault>
    ensures tells { (F.stand folder.new).told ≡ (F.stand folder.old).told }
    ensures counts { CountsLoading (F.stand folder.old).count (F.stand folder.new).count result }
    ensures loads { let told = (F.stand folder.old).told in
        IsLoading told directory.now result }
{
    match read_graph(alloc, directory, folder) {
        Ok(graph) => load_packages(alloc, directory, graph, folder),
        Err(fault) => Err(LoadingFault::Graph(fault)),
    }
}

/// Loads the modules that are reached in the packages of an application.
fn load_reached<F: Folder>(
    alloc: Global,
    directory: &str,
    graph: Graph,
    folder: &mut F,
) -> Result<Application<ModuleCode>, LoadingFault>
    ensures tells { (F.stand folder.new).told ≡ (F.stand folder.old).told }
    ensures counts { CountsLoading (F.stand folder.old).count (F.stand folder.new).count result }
    ensures loads { let told = (F.stand folder.old).told in
        AreReachedIn told directory.now graph result }
{
    let reader = SourceReader;
    match load(alloc, directory, graph, &reader, folder) {
        Ok(app) => Ok(app),
        Err(fault) => Err(LoadingFault::Load(fault)),
    }
}

/// Reads the packages of the application in a directory, and loads the modules that are reached. Its policy files are passed over, whatever they hold: the answer is never `Policies`.
pub fn load_sources<F: Folder>(
    alloc: Global,
    directory: &str,
    folder: &mut F,
) -> Result<Application<ModuleCode>, LoadingFault>
    ensures tells { (F.stand folder.new).told ≡ (F.stand folder.old).told }
    ensures counts { CountsLoading (F.stand folder.old).count (F.stand folder.new).count result }
    ensures loads { let told = (F.stand folder.old).told in
        AreSources told directory.now result }
{
    match read_graph(alloc, directory, folder) {
        Ok(graph) => load_reached(alloc, directory, graph, folder),
        Err(fault) => Err(LoadingFault::Graph(fault)),
    }
}
