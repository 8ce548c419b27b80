// What a source requests.

ghost use Rattle.std.specs.Prelude.{◌≡◌, ◌++◌, OnOk, IfOk};
ghost use Rattle.js_scope.specs.Resolutions as spec;
ghost use Rattle.js_names.specs.Lists.{flat};

use crate::finding::{Finding, ModuleRequest};
use crate::resolve::Resolved;
use lava_base::memory::OutOfMemory;
use sqlite_items::Items;
use std::alloc::Global;

fn add_request(finding: &Finding, out: &mut Items<ModuleRequest>) -> Result<(), OutOfMemory>
    ensures { OnOk result (out.new ≡ out.old ++ spec.request_in finding.now) }
{
    match finding {
        Finding::Used(_) => Ok(()),
        Finding::Requested(found) => {
            let text = found.text.copy()?;
            let place = found.place;
            out.push(ModuleRequest { text, place })?;
            Ok(())
        }
    }
}

fn add_requests(mut list: &[Finding], out: &mut Items<ModuleRequest>) -> Result<(), OutOfMemory>
    ensures { OnOk result (out.new ≡ out.old ++ flat spec.request_in list.entry.now) }
{
    while let [first, rest @ ..] = list {
        add_request(first, out)?;
        list = rest;
    }
    Ok(())
}

/// The calls of the module's own `require` with a string first, in the order of the text.
pub fn requests(alloc: Global, resolved: &Resolved) -> Result<Items<ModuleRequest>, OutOfMemory>
    ensures { IfOk result (λ list. list ≡ flat spec.request_in resolved.now.findings) }
{
    let mut list = Items::new(alloc);
    add_requests(resolved.findings.as_slice(), &mut list)?;
    Ok(list)
}
