// The exit status of an ending.

ghost use Rattle.std.specs.Prelude.{◌≡◌};
ghost use Rattle.lava_runner.specs.Endings.{ending_status};

use lava_driver::js_crossing::ending::Ending;
use lava_lines::status::{BUDGET_STATUS, DONE_STATUS, LIMIT_STATUS, UNCAUGHT_STATUS};

/// The exit status of an ending of which no call on the outside failed.
pub fn ending_status(ending: Ending) -> u8
    ensures { result ≡ ending_status ending }
{
    match ending {
        Ending::Done => DONE_STATUS,
        Ending::Uncaught => UNCAUGHT_STATUS,
        Ending::Budget(_) => BUDGET_STATUS,
        Ending::Fault(_, _) => LIMIT_STATUS,
    }
}
