// The inputs and the links of the flows of a list, in a table of both ends.
ghost use Rattle.std.specs.Prelude.{◌≡◌, ◌%◌, ◌≤◌, eqb, length};
ghost use Rattle.rules.specs.Words.{if};
ghost use Rattle.rules.specs.Flows.{flows};
ghost use Rattle.split.specs.Steps.{Sides};
ghost use Rattle.schedule.specs.Steps.{Tabled};

use bits::put_digit;
use checks::reservations::Reservations;
use planes::{INPUTS, LINKS};
use split::EndTable;

// 0 for the first link of an output, 1 for any other.
fn beyond_first_link(link: usize) -> u64
    ensures { (result ≡ if (eqb (link % 4) 0) 0 1) × (result ≤ 1) }
{
    if link % 4 == 0 { 0 } else { 1 }
}

// Read from the list once, for all blocks. The table is lent, since one that is handed back by value is copied.
pub(crate) fn tabulate(of: &Reservations<'_>, table: &mut EndTable)
    requires { length table.old.ends ≡ 1056 }
    ensures { Tabled of.now.list.now table.new.ends × Sides (flows of.now.list.now) table.new.multi_link table.new.ends }
{
    table.multi_link = 0;
    for f in 0..of.flows() {
        let flow = of.flow(f);
        // By `as`: `try_from` would have a case that does not come.
        table.ends[INPUTS + f] = flow.input as u8;
        table.ends[LINKS + f] = flow.link as u8;
        table.multi_link = put_digit(table.multi_link, flow.output, beyond_first_link(flow.link));
    }
}
