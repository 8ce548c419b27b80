// What a trace has named, and the lines of its crossings.

ghost use Rattle.std.specs.Prelude.{◌≡◌, ◌++◌, OnOk, OnErr};
ghost use Rattle.lava_journal.specs.Lines.{crossing_line};
ghost use Rattle.lava_journal.specs.Sheets.{no_names};

use crate::pen::Pen;
use js_desc::crossing::Crossing;
use lava_base::ids::Ref;
use lava_base::list::List;
use lava_base::marks::Marks;
use lava_base::memory::OutOfMemory;
use std::alloc::Global;
use std::marker::Model;

/// What a trace has named so far: which objects and made symbols have left each party, with their numbers, and which references have stood in a crossing. To name an item takes a constant number of look-ups.
#[derive(Drop)]
pub struct Names {
    pen: Pen,
}

impl Model for Names {
    ghost use Rattle.lava_journal.specs.Sheets.{TraceNames};

    ghost Value = { TraceNames };

    ghost view = { λ n. n.pen.names };
}

impl Names {
    /// Nothing is named yet but the host's fixed references and the global of `$root$`. It takes no memory.
    pub fn new(alloc: Global) -> Names
        ensures { result ≡ no_names }
    {
        Names {
            pen: Pen::new(alloc),
        }
    }

    /// Appends the line of a crossing with this number. `marks` has the marks of the references that it names.
    ///
    /// After want of memory `out` is as before, and the names are no longer those of any trace.
    pub fn write_crossing(
        &mut self,
        number: u64,
        crossing: &Crossing,
        marks: &List<(Ref, Marks)>,
        out: &mut List<u8>,
    ) -> Result<(), OutOfMemory>
        ensures line { let line = crossing_line self.old number crossing.now marks.now in
            OnOk result (out.new ≡ out.old ++ line.text) }
        ensures names { let line = crossing_line self.old number crossing.now marks.now in
            OnOk result (self.new ≡ line.names) }
        ensures err { OnErr result (out.new ≡ out.old) }
    {
        self.pen.fresh_line(number, crossing, marks)?;
        out.extend_from_slice(self.pen.text())
    }
}
